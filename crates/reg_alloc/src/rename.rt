ghost use Rattle.std.specs.Prelude.{◌≡◌, IfOk, map};
ghost use Rattle.std.specs.List.{AllZip};
ghost use Rattle.std.specs.List.Sorted.{IsPermutation};
ghost use Rattle.reg_alloc.specs.NewNumber.{new_number};
ghost use Rattle.reg_alloc.specs.Renamed.{
  IsRenamed,
  renamed_item,
  renamed_numbers,
  renamed_place,
  renamed_source,
};

use crate::item_order::sort_items;
use crate::renaming::Renaming;
use aq_term::memory::Memory;
use bam_code::item::Item;
use bam_code::items::Items;
use bam_code::line::Line;
use bam_code::place::Place;
use bam_code::source::Source;
use std::alloc::Global;
use std::mem;

/// The lines with the new numbers of their registers.
pub fn renamed(alloc: Global, lines: Vec<Line>, renaming: &Renaming) -> Result<Vec<Line>, Memory>
    ensures { IfOk result (λ renamed. AllZip (IsRenamed (new_number renaming.now)) lines.items renamed.items) }
{
    let mut renamed = Vec::with_capacity(alloc, lines.len())?;
    for line in lines {
        renamed.push(renamed_line(alloc, line, renaming))?;
    }
    Ok(renamed)
}

fn renamed_line(alloc: Global, line: Line, renaming: &Renaming) -> Line
    ensures { IsRenamed (new_number renaming.now) line result }
{
    let mut line = line;
    rename(alloc, &mut line, renaming);
    line
}

/// Gives the registers that a line names their new numbers, and puts its items in order.
fn rename(alloc: Global, line: &mut Line, renaming: &Renaming)
    ensures { IsRenamed (new_number renaming.now) line.old line.new }
{
    match line {
        Line::Label { items, .. } => rename_items(alloc, items, renaming),
        Line::Alt { items, .. } => rename_items(alloc, items, renaming),
        Line::Ball { items, .. } => rename_items(alloc, items, renaming),
        Line::Move { into, from } => rename_move(into, from, renaming),
        Line::Deref { register, from } => rename_both(register, from, renaming),
        Line::Load { register, from, .. } => rename_both(register, from, renaming),
        Line::Bind { register, with } => rename_both(register, with, renaming),
        Line::Unify { register, with } => rename_both(register, with, renaming),
        Line::Fill { register, with } => rename_both(register, with, renaming),
        Line::Structure { register, .. } => rename_register(register, renaming),
        Line::ListCell { register } => rename_register(register, renaming),
        Line::PushNew { register } => rename_register(register, renaming),
        Line::Fresh { register } => rename_register(register, renaming),
        Line::Hole { register, .. } => rename_register(register, renaming),
        Line::Mark { register } => rename_register(register, renaming),
        Line::Switch { register, .. } => rename_register(register, renaming),
        Line::Match { register, .. } => rename_register(register, renaming),
        Line::Functor { register, .. } => rename_register(register, renaming),
        Line::Push(word) => rename_source(word, renaming),
        Line::Cut(word) => rename_source(word, renaming),
        Line::Raise(word) => rename_source(word, renaming),
        _ => rename_numbers(line, renaming),
    }
}

/// The same for a line that computes with numbers, or compares terms.
fn rename_numbers(line: &mut Line, renaming: &Renaming)
    ensures { line.new ≡ renamed_numbers (new_number renaming.now) line.old }
{
    match line {
        Line::Arith {
            register,
            left,
            right,
            ..
        } => {
            rename_register(register, renaming);
            rename_two(left, right, renaming);
        }
        Line::Eval {
            register,
            expression,
        } => rename_both(register, expression, renaming),
        Line::Less { left, right, .. } => rename_two(left, right, renaming),
        Line::Same { left, right, .. } => rename_two(left, right, renaming),
        _ => {}
    }
}

fn rename_move(into: &mut Place, from: &mut Source, renaming: &Renaming)
    ensures into { into.new ≡ renamed_place (new_number renaming.now) into.old }
    ensures from { from.new ≡ renamed_source (new_number renaming.now) from.old }
{
    *into = renamed_place(*into, renaming);
    rename_source(from, renaming);
}

fn rename_both(register: &mut u16, word: &mut Source, renaming: &Renaming)
    ensures register { register.new ≡ new_number renaming.now register.old }
    ensures word { word.new ≡ renamed_source (new_number renaming.now) word.old }
{
    rename_register(register, renaming);
    rename_source(word, renaming);
}

fn rename_two(left: &mut Source, right: &mut Source, renaming: &Renaming)
    ensures left { left.new ≡ renamed_source (new_number renaming.now) left.old }
    ensures right { right.new ≡ renamed_source (new_number renaming.now) right.old }
{
    rename_source(left, renaming);
    rename_source(right, renaming);
}

fn rename_register(register: &mut u16, renaming: &Renaming)
    ensures { register.new ≡ new_number renaming.now register.old }
{
    *register = renaming.register(*register);
}

fn rename_source(word: &mut Source, renaming: &Renaming)
    ensures { word.new ≡ renamed_source (new_number renaming.now) word.old }
{
    if let Source::Register(number) = *word {
        *word = Source::Register(renaming.register(number));
    }
}

fn rename_items(alloc: Global, items: &mut Items, renaming: &Renaming)
    ensures { IsPermutation (map (renamed_item (new_number renaming.now)) items.old) items.new }
{
    let mut renamed = mem::replace(items, Items::new(alloc)).into_vec();
    rename_each(&mut renamed, renaming);
    sort_items(&mut renamed);
    *items = Items::from_vec(renamed);
}

fn rename_each(items: &mut Vec<Item>, renaming: &Renaming)
    ensures { items.new.items ≡ map (renamed_item (new_number renaming.now)) items.old.items }
{
    for item in items.iter_mut() {
        *item = renamed_item(*item, renaming);
    }
}

fn renamed_item(item: Item, renaming: &Renaming) -> Item
    ensures { result ≡ renamed_item (new_number renaming.now) item }
{
    match item {
        Item::Argument { argument, known } => Item::Argument { argument, known },
        Item::Place { place, holds, mark } => Item::Place {
            place: renamed_place(place, renaming),
            holds,
            mark,
        },
    }
}

fn renamed_place(place: Place, renaming: &Renaming) -> Place
    ensures { result ≡ renamed_place (new_number renaming.now) place }
{
    match place {
        Place::Register(number) => Place::Register(renaming.register(number)),
        Place::Slot(number) => Place::Slot(number),
    }
}
