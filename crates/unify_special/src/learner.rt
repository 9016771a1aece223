ghost use Rattle.std.specs.Prelude.{◌≡◌, ◌≤◌, ◌+◌};
ghost use Rattle.unify_special.specs.Steps.{moves_of, steps_of};

use crate::draft::Draft;
use crate::operand::{move_to, operand};
use crate::picture::Picture;
use crate::place::Place;
use crate::role::mark;
use aq_term::builtin::Builtin;
use aq_term::memory::Memory;
use bam_code::line::Line;
use bam_code::signature::Signature;

/// The variable itself, where its place learns what branches learn of its word: a register does, and a slot that is marked with an
/// argument. A label cuts another slot off from the register to which its word was brought.
pub fn learner(signature: &Signature, picture: &Picture, variable: u32) -> Option<u32> {
    match (picture.places.get(variable), mark(signature, variable)) {
        (Place::Register(_), _) | (Place::Slot(_), Some(_)) => Some(variable),
        _ => None,
    }
}

/// Tests a variable in a slot by a built-in that cannot fail, behind branches of which each has made it so. Where there are slots
/// nothing stands in register 0.
pub fn test_slot(
    variable: u32,
    builtin: Builtin,
    picture: &Picture,
    draft: &mut Draft,
) -> Result<(), Memory>
    ensures steps { steps_of draft.new.lines ≡ steps_of draft.old.lines }
    ensures moves { moves_of draft.new.lines ≤ moves_of draft.old.lines + 1 }
{
    draft.line(move_to(0, operand(picture, variable)))?;
    draft.line(Line::Builtin(builtin))
}
