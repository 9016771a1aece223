ghost use Rattle.std.specs.Prelude.{◌≡◌, ◌++◌, ◌∷◌, [], OnOk};
ghost use Rattle.reg_alloc.specs.LineRegisters.{
  item_registers,
  items_registers,
  number_registers,
  place_registers,
  registers_of,
  source_registers,
};

use aq_term::memory::Memory;
use bam_code::item::Item;
use bam_code::line::Line;
use bam_code::place::Place;
use bam_code::source::Source;

/// Puts the registers that a line names by their numbers at the end of a list, each as often as it is named.
pub fn note_registers(line: &Line, found: &mut Vec<u16>) -> Result<(), Memory>
    ensures { OnOk result (found.new.items ≡ found.old.items ++ registers_of line.now) }
{
    match line {
        Line::Label { items, .. } => note_items(items.as_slice(), found),
        Line::Alt { items, .. } => note_items(items.as_slice(), found),
        Line::Ball { items, .. } => note_items(items.as_slice(), found),
        Line::Move { into, from } => note_move(*into, *from, found),
        Line::Deref { register, from } => note_both(*register, *from, found),
        Line::Load { register, from, .. } => note_both(*register, *from, found),
        Line::Bind { register, with } => note_both(*register, *with, found),
        Line::Unify { register, with } => note_both(*register, *with, found),
        Line::Fill { register, with } => note_both(*register, *with, found),
        Line::Structure { register, .. } => note_register(*register, found),
        Line::ListCell { register } => note_register(*register, found),
        Line::PushNew { register } => note_register(*register, found),
        Line::Fresh { register } => note_register(*register, found),
        Line::Hole { register, .. } => note_register(*register, found),
        Line::Mark { register } => note_register(*register, found),
        Line::Switch { register, .. } => note_register(*register, found),
        Line::Match { register, .. } => note_register(*register, found),
        Line::Functor { register, .. } => note_register(*register, found),
        Line::Push(word) => note_source(*word, found),
        Line::Cut(word) => note_source(*word, found),
        Line::Raise(word) => note_source(*word, found),
        _ => note_numbers(line, found),
    }
}

/// Those of a line that computes with numbers, or compares terms.
fn note_numbers(line: &Line, found: &mut Vec<u16>) -> Result<(), Memory>
    ensures { OnOk result (found.new.items ≡ found.old.items ++ number_registers line.now) }
{
    match line {
        Line::Arith {
            register,
            left,
            right,
            ..
        } => {
            note_both(*register, *left, found)?;
            note_source(*right, found)
        }
        Line::Eval {
            register,
            expression,
        } => note_both(*register, *expression, found),
        Line::Less { left, right, .. } => note_two(*left, *right, found),
        Line::Same { left, right, .. } => note_two(*left, *right, found),
        _ => Ok(()),
    }
}

fn note_items(items: &[Item], found: &mut Vec<u16>) -> Result<(), Memory>
    ensures { OnOk result (found.new.items ≡ found.old.items ++ items_registers items.now) }
{
    for item in items {
        note_item(item, found)?;
    }
    Ok(())
}

fn note_item(item: &Item, found: &mut Vec<u16>) -> Result<(), Memory>
    ensures { OnOk result (found.new.items ≡ found.old.items ++ item_registers item.now) }
{
    match item {
        Item::Argument { .. } => Ok(()),
        Item::Place { place, .. } => note_place(*place, found),
    }
}

fn note_move(into: Place, from: Source, found: &mut Vec<u16>) -> Result<(), Memory>
    ensures { OnOk result (found.new.items ≡ found.old.items ++ (place_registers into ++ source_registers from)) }
{
    note_place(into, found)?;
    note_source(from, found)
}

fn note_both(register: u16, word: Source, found: &mut Vec<u16>) -> Result<(), Memory>
    ensures { OnOk result (found.new.items ≡ found.old.items ++ register ∷ source_registers word) }
{
    note_register(register, found)?;
    note_source(word, found)
}

fn note_two(left: Source, right: Source, found: &mut Vec<u16>) -> Result<(), Memory>
    ensures { OnOk result (found.new.items ≡ found.old.items ++ (source_registers left ++ source_registers right)) }
{
    note_source(left, found)?;
    note_source(right, found)
}

fn note_register(register: u16, found: &mut Vec<u16>) -> Result<(), Memory>
    ensures { OnOk result (found.new.items ≡ found.old.items ++ register ∷ []) }
{
    found.push(register)?;
    Ok(())
}

fn note_place(place: Place, found: &mut Vec<u16>) -> Result<(), Memory>
    ensures { OnOk result (found.new.items ≡ found.old.items ++ place_registers place) }
{
    match place {
        Place::Register(number) => note_register(number, found),
        Place::Slot(_) => Ok(()),
    }
}

fn note_source(source: Source, found: &mut Vec<u16>) -> Result<(), Memory>
    ensures { OnOk result (found.new.items ≡ found.old.items ++ source_registers source) }
{
    match source {
        Source::Register(number) => note_register(number, found),
        _ => Ok(()),
    }
}
