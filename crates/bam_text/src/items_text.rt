ghost use Rattle.std.specs.Prelude.{◌<◌, ◌≤◌, OnOk, length};

use crate::fault::LineFault;
use crate::fields::Fields;
use crate::words::known_of;
use crate::{names, operands};
use aq_term::atoms::Atoms;
use bam_code::arg_type::ArgType;
use bam_code::item::Item;
use bam_code::items::Items;
use bam_code::place::Place;
use bam_code::place_type::PlaceType;
use bam_code::word_type::WordType;
use std::alloc::Global;

/// The greatest number of an argument.
const LAST_ARGUMENT: u64 = 63;

/// Reads the items of a label of a procedure with these arguments, up to the end of the line.
pub fn items(
    alloc: Global,
    fields: &mut Fields<'_>,
    atoms: &mut Atoms,
    args: &[ArgType],
) -> Result<Items, LineFault> {
    let mut items = Items::new(alloc);
    argument_items(fields, args, &mut items)?;
    place_items(alloc, fields, atoms, args, &mut items)?;
    Ok(items)
}

/// Reads an item for each argument that is told its term.
fn argument_items(
    fields: &mut Fields<'_>,
    args: &[ArgType],
    items: &mut Items,
) -> Result<(), LineFault> {
    for (place, arg) in args.iter().enumerate() {
        if is_term(*arg) {
            fields.space()?;
            items.push(argument_item(fields, place)?)?;
        }
    }
    Ok(())
}

/// Reads the item of the argument at this place.
fn argument_item(fields: &mut Fields<'_>, place: usize) -> Result<Item, LineFault> {
    let argument = argument(fields)?;
    if usize::from(argument) != place {
        return Err(LineFault::Form);
    }
    fields.byte(b':')?;
    let known = known_of(fields.word()).ok_or(LineFault::Form)?;
    Ok(Item::Argument { argument, known })
}

/// Reads the number of an argument.
fn argument(fields: &mut Fields<'_>) -> Result<u8, LineFault>
    ensures within { length fields.new ≤ length fields.old }
{
    fields.byte(b'a')?;
    Ok(fields.number(LAST_ARGUMENT)? as u8)
}

/// Reads the items of registers and then of slots, each later than the one before.
fn place_items(
    alloc: Global,
    fields: &mut Fields<'_>,
    atoms: &mut Atoms,
    args: &[ArgType],
    items: &mut Items,
) -> Result<(), LineFault> {
    let mut least: u32 = 0;
    while !fields.is_at_end() {
        fields.space()?;
        let place = operands::place(fields)?;
        let rank = rank(place);
        if rank < least {
            return Err(LineFault::Form);
        }
        least = rank + 1;
        items.push(place_item(alloc, fields, atoms, args, place)?)?;
    }
    Ok(())
}

/// The place among all places: registers come before slots.
fn rank(place: Place) -> u32
    ensures { result < 100000 }
{
    match place {
        Place::Register(number) => u32::from(number),
        Place::Slot(number) => 65536 + u32::from(number),
    }
}

/// Reads what follows the place of an item.
fn place_item(
    alloc: Global,
    fields: &mut Fields<'_>,
    atoms: &mut Atoms,
    args: &[ArgType],
    place: Place,
) -> Result<Item, LineFault>
    ensures within { length fields.new ≤ length fields.old }
{
    fields.byte(b':')?;
    let holds = place_type(alloc, fields, atoms)?;
    let mark = mark(fields)?;
    if is_marked_well(holds, mark, args) {
        Ok(Item::Place { place, holds, mark })
    } else {
        Err(LineFault::Form)
    }
}

/// Reads the mark of an item, where it has one.
fn mark(fields: &mut Fields<'_>) -> Result<Option<u8>, LineFault>
    ensures within { length fields.new ≤ length fields.old }
{
    if fields.takes(b'=') {
        Ok(Some(argument(fields)?))
    } else {
        Ok(None)
    }
}

/// Whether a mark may stand there: a hole is that of a result, and another place may hold an argument's term.
fn is_marked_well(holds: PlaceType, mark: Option<u8>, args: &[ArgType]) -> bool {
    match (holds, mark) {
        (PlaceType::Hole(_), None) => false,
        (PlaceType::Hole(_), Some(argument)) => is_out_at(args, argument),
        (_, None) => true,
        (_, Some(argument)) => is_term_at(args, argument),
    }
}

fn is_out_at(args: &[ArgType], argument: u8) -> bool {
    match args.get(usize::from(argument)) {
        Some(arg) => *arg == ArgType::Out,
        None => false,
    }
}

fn is_term_at(args: &[ArgType], argument: u8) -> bool {
    match args.get(usize::from(argument)) {
        Some(arg) => is_term(*arg),
        None => false,
    }
}

/// Whether an argument is a term when the procedure is called.
pub fn is_term(arg: ArgType) -> bool {
    arg != ArgType::Out && arg != ArgType::Bar
}

/// Reads what a place holds.
fn place_type(
    alloc: Global,
    fields: &mut Fields<'_>,
    atoms: &mut Atoms,
) -> Result<PlaceType, LineFault>
    ensures within { length fields.new ≤ length fields.old }
{
    match fields.word() {
        b"hole" => Ok(PlaceType::Hole(type_after_colon(alloc, fields, atoms)?)),
        b"part" => Ok(PlaceType::Part(type_after_colon(alloc, fields, atoms)?)),
        b"cell" => Ok(PlaceType::Cell(type_after_colon(alloc, fields, atoms)?)),
        word => Ok(PlaceType::Word(word_type(alloc, fields, atoms, word)?)),
    }
}

fn type_after_colon(
    alloc: Global,
    fields: &mut Fields<'_>,
    atoms: &mut Atoms,
) -> Result<WordType, LineFault>
    ensures within { length fields.new ≤ length fields.old }
{
    fields.byte(b':')?;
    let word = fields.word();
    word_type(alloc, fields, atoms, word)
}

/// The type that begins with a word. Its functor is read where it has one.
fn word_type(
    alloc: Global,
    fields: &mut Fields<'_>,
    atoms: &mut Atoms,
    word: &[u8],
) -> Result<WordType, LineFault>
    ensures within { length fields.new ≤ length fields.old }
{
    if let Some(simple) = simple_type(word) {
        return Ok(simple);
    }
    fields.byte(b':')?;
    let functor = names::functor(alloc, fields, atoms)?;
    match word {
        b"str" => Ok(WordType::Structure(functor)),
        b"gstr" => Ok(WordType::GroundStructure(functor)),
        b"fstr" => Ok(WordType::FullStructure(functor)),
        _ => Err(LineFault::Form),
    }
}

/// The type of a word, where it needs no functor.
fn simple_type(word: &[u8]) -> Option<WordType> {
    match word {
        b"any" => Some(WordType::Any),
        b"head" => Some(WordType::Head),
        b"var" => Some(WordType::Var),
        b"nonvar" => Some(WordType::Nonvar),
        b"direct" => Some(WordType::Direct),
        b"ground" => Some(WordType::Ground),
        b"gdirect" => Some(WordType::GroundDirect),
        b"full" => Some(WordType::Full),
        b"int" => Some(WordType::Int),
        b"atm" => Some(WordType::Atom),
        b"lst" => Some(WordType::ListCell),
        b"glst" => Some(WordType::GroundListCell),
        b"flst" => Some(WordType::FullListCell),
        b"bar" => Some(WordType::Bar),
        _ => None,
    }
}
