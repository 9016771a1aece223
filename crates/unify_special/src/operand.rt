ghost use Rattle.std.specs.Prelude.{◌≡◌, ◌≤◌, ◌+◌};
ghost use Rattle.bam_code.specs.declared.line.Line.TheVariants as line;
ghost use Rattle.bam_code.specs.declared.place.Place.TheVariants as code_place;
ghost use Rattle.unify_special.specs.Places.{operand_of, source_of};
ghost use Rattle.unify_special.specs.Steps.{moves_of, moves_of_line, step_of, steps_of};

use crate::draft::Draft;
use crate::picture::Picture;
use crate::place::Place;
use aq_term::memory::Memory;
use bam_code::constant::Constant;
use bam_code::line::Line;
use bam_code::place::Place as CodePlace;
use bam_code::source::Source;
use type_lattice::fact::{Fact, below};

/// A register that no line sets, so that code that reads it is rejected.
const UNSET: u16 = u16::MAX;

/// The operand that names a place. For a boxed value that is the slot with the reference to it.
pub fn source(place: Place) -> Option<Source>
    ensures { result ≡ source_of place }
{
    match place {
        Place::Nowhere => None,
        Place::Register(number) => Some(Source::Register(number)),
        Place::Slot(number) | Place::Boxed(number) => Some(Source::Slot(number)),
    }
}

/// The operand that names the place of a variable. For one that stands nowhere it is a register that is never set.
pub fn operand(picture: &Picture, variable: u32) -> Source
    ensures { result ≡ operand_of picture.now.places variable }
{
    source(picture.places.get(variable)).unwrap_or(Source::Register(UNSET))
}

/// The register in which a variable stands. For one that stands elsewhere it is one that is never set.
pub fn register_of(picture: &Picture, variable: u32) -> u16 {
    match picture.places.get(variable) {
        Place::Register(register) => register,
        _ => UNSET,
    }
}

/// The operand that is a constant.
pub fn constant_source(constant: Constant) -> Source {
    match constant {
        Constant::Int(value) => Source::Int(value),
        Constant::Atom(name) => Source::Atom(name),
    }
}

/// A line that moves a word to a register.
pub fn move_to(register: u16, from: Source) -> Line
    ensures { result ≡ line.Move (code_place.Register register) from }
{
    Line::Move {
        into: CodePlace::Register(register),
        from,
    }
}

/// Whether a variable's value is boxed in a slot.
pub fn is_boxed(picture: &Picture, variable: u32) -> bool {
    matches!(picture.places.get(variable), Place::Boxed(_))
}

/// A line that brings the value of a variable to a register, as it stands in its place or else out of its cell.
pub fn bring_to(register: u16, picture: &Picture, variable: u32) -> Line
    ensures steps { step_of result ≡ None }
    ensures moves { moves_of_line result ≤ 1 }
{
    let from = operand(picture, variable);
    if is_boxed(picture, variable) {
        Line::Deref { register, from }
    } else {
        move_to(register, from)
    }
}

/// The register in which a variable's word stands, a temporary one where the variable stands in a slot.
pub fn in_register(picture: &Picture, variable: u32, draft: &mut Draft) -> Result<u16, Memory>
    ensures steps { steps_of draft.new.lines ≡ steps_of draft.old.lines }
    ensures moves { moves_of draft.new.lines ≤ moves_of draft.old.lines + 1 }
{
    match operand(picture, variable) {
        Source::Register(register) => Ok(register),
        from => {
            let register = draft.take_register();
            draft.line(move_to(register, from))?;
            Ok(register)
        }
    }
}

/// The register in which a variable's value stands dereferenced, a temporary one where the variable stands in a slot. What is known
/// of the word there is learned by the variable's own place too.
pub fn open_variable(picture: &Picture, variable: u32, draft: &mut Draft) -> Result<u16, Memory>
    ensures steps { steps_of draft.new.lines ≡ steps_of draft.old.lines }
    ensures moves { moves_of draft.new.lines ≤ moves_of draft.old.lines + 1 }
{
    let is_direct = below(picture.facts.fact(variable), Fact::Direct);
    match operand(picture, variable) {
        Source::Register(register) if is_direct => Ok(register),
        Source::Register(register) => deref_to(register, Source::Register(register), draft),
        from if is_direct && !is_boxed(picture, variable) => {
            let register = draft.take_register();
            draft.line(move_to(register, from))?;
            Ok(register)
        }
        from => {
            let register = draft.take_register();
            deref_to(register, from, draft)
        }
    }
}

fn deref_to(register: u16, from: Source, draft: &mut Draft) -> Result<u16, Memory>
    ensures steps { steps_of draft.new.lines ≡ steps_of draft.old.lines }
    ensures moves { moves_of draft.new.lines ≡ moves_of draft.old.lines }
{
    draft.line(Line::Deref { register, from })?;
    Ok(register)
}
