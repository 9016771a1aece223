ghost use Rattle.std.specs.Prelude.{◌≡◌, IfOk};
ghost use Rattle.unify_special.specs.Steps.{moves_of_line, step_of};

use crate::fact_types::{filled_type, known, word_type};
use crate::opened::Opened;
use crate::picture::Picture;
use crate::place::Place;
use crate::role::{Role, role_of};
use aq_term::memory::Memory;
use bam_code::item::Item;
use bam_code::items::Items;
use bam_code::line::Line;
use bam_code::place::Place as CodePlace;
use bam_code::place_type::PlaceType;
use bam_code::signature::Signature;
use bam_code::word_type::WordType;
use std::alloc::Global;
use type_lattice::fact::Fact;

/// What a place holds at a label.
#[derive(Clone, Copy)]
struct Row {
    place: CodePlace,
    holds: PlaceType,
    mark: Option<u8>,
}

impl Row {
    /// By which rows are put in order: registers, and then slots, each by its number.
    fn key(&self) -> u32 {
        match self.place {
            CodePlace::Register(number) => u32::from(number),
            CodePlace::Slot(number) => 65_536 + u32::from(number),
        }
    }

    fn item(self) -> Item {
        Item::Place {
            place: self.place,
            holds: self.holds,
            mark: self.mark,
        }
    }
}

/// A label line with what the picture says, and the registers that are looked into there.
pub fn label_line(
    alloc: Global,
    number: u32,
    signature: &Signature,
    picture: &Picture,
    opened: &[Opened],
) -> Result<Line, Memory>
    ensures steps { IfOk result (λ line. step_of line ≡ None) }
    ensures moves { IfOk result (λ line. moves_of_line line ≡ 0) }
{
    let items = label_items(alloc, signature, picture, opened)?;
    Ok(Line::Label {
        number,
        frame: picture.frame,
        items,
    })
}

/// What holds at a label by the picture: what is known of each argument that is neither a result nor a barrier; each variable that
/// has a place, but for those that are out; each hole of a result that is not filled; the barrier and the depth; and the registers
/// that are looked into, which stand in place of the variables in them.
pub fn label_items(
    alloc: Global,
    signature: &Signature,
    picture: &Picture,
    opened: &[Opened],
) -> Result<Items, Memory> {
    let mut rows = Vec::new(alloc);
    list_variables(signature, picture, &mut rows)?;
    list_depth(picture, &mut rows)?;
    list_opened(opened, &mut rows)?;
    rows.sort_by_key(|row: &Row| row.key())?;
    let mut items = Items::new(alloc);
    list_arguments(signature, picture, &mut items)?;
    list_rows(rows.as_slice(), &mut items)?;
    Ok(items)
}

/// What is known of the arguments.
fn list_arguments(
    signature: &Signature,
    picture: &Picture,
    items: &mut Items,
) -> Result<(), Memory> {
    for variable in 0..signature.args.len().min(256) as u32 {
        if let Role::Argument(argument) = role_of(signature, variable) {
            items.push(Item::Argument {
                argument,
                known: known(picture.facts.fact(variable)),
            })?;
        }
    }
    Ok(())
}

fn list_variables(
    signature: &Signature,
    picture: &Picture,
    rows: &mut Vec<Row>,
) -> Result<(), Memory> {
    for (variable, place) in picture.places.as_slice().iter().enumerate() {
        if let Some(row) = variable_row(signature, picture, variable, *place) {
            rows.push(row)?;
        }
    }
    Ok(())
}

/// The row of a variable that stands there. One that is out has none, but for the hole of a result.
fn variable_row(
    signature: &Signature,
    picture: &Picture,
    variable: usize,
    place: Place,
) -> Option<Row> {
    let number = u32::try_from(variable).ok()?;
    let at = code_place(place)?;
    let fact = picture.facts.fact(number);
    match role_of(signature, number) {
        Role::Barrier => Some(Row {
            place: at,
            holds: PlaceType::Word(WordType::Bar),
            mark: None,
        }),
        Role::Result(argument, filled) if fact == Fact::Out => Some(Row {
            place: at,
            holds: PlaceType::Hole(filled_type(filled)),
            mark: Some(argument),
        }),
        _ if fact == Fact::Out => None,
        Role::Argument(argument) => Some(Row {
            place: at,
            holds: place_type(place, fact),
            mark: Some(argument),
        }),
        Role::Result(_, _) | Role::Local => Some(Row {
            place: at,
            holds: place_type(place, fact),
            mark: None,
        }),
    }
}

/// Where a word of the place stands.
fn code_place(place: Place) -> Option<CodePlace> {
    match place {
        Place::Nowhere => None,
        Place::Register(number) => Some(CodePlace::Register(number)),
        Place::Slot(number) | Place::Boxed(number) => Some(CodePlace::Slot(number)),
    }
}

/// What a place holds for a variable of this fact. A reference to a filled cell is direct to nobody.
fn place_type(place: Place, fact: Fact) -> PlaceType {
    match (place, fact) {
        (Place::Boxed(_), Fact::Full) => PlaceType::Cell(WordType::Full),
        (Place::Boxed(_), Fact::GroundDirect) => PlaceType::Word(WordType::Ground),
        (Place::Boxed(_), Fact::Direct) => PlaceType::Word(WordType::Nonvar),
        _ => PlaceType::Word(word_type(fact)),
    }
}

fn list_depth(picture: &Picture, rows: &mut Vec<Row>) -> Result<(), Memory> {
    if let Some(place) = code_place(picture.depth) {
        rows.push(Row {
            place,
            holds: PlaceType::Word(WordType::Bar),
            mark: None,
        })?;
    }
    Ok(())
}

fn list_opened(opened: &[Opened], rows: &mut Vec<Row>) -> Result<(), Memory> {
    for one in opened {
        rows.push(Row {
            place: CodePlace::Register(one.register),
            holds: PlaceType::Word(one.holds),
            mark: one.mark,
        })?;
    }
    Ok(())
}

/// The rows in their order as items. Of several for one place the last one says the type, and the first one the mark.
fn list_rows(rows: &[Row], items: &mut Items) -> Result<(), Memory> {
    let mut last: Option<Row> = None;
    for row in rows {
        last = match last {
            Some(before) if before.key() == row.key() => Some(Row {
                mark: before.mark,
                ..*row
            }),
            Some(before) => {
                items.push(before.item())?;
                Some(*row)
            }
            None => Some(*row),
        };
    }
    if let Some(row) = last {
        items.push(row.item())?;
    }
    Ok(())
}
