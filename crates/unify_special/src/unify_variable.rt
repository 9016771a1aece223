ghost use Rattle.std.specs.Prelude.{◌≡◌, ◌≤◌, ◌+◌};
ghost use Rattle.unify_special.specs.Steps.{moves_of, steps_of};

use crate::draft::Draft;
use crate::operand::{bring_to, in_register, move_to, operand, register_of};
use crate::picture::Picture;
use aq_term::memory::Memory;
use bam_code::line::Line;
use bam_code::source::Source;
use type_lattice::fact::Fact;

/// The lines of `X = Y`. A variable that is out has a register, in which nothing stands yet.
pub fn unify_variable(
    left: u32,
    right: u32,
    picture: &Picture,
    draft: &mut Draft,
) -> Result<(), Memory>
    ensures steps { steps_of draft.new.lines ≡ steps_of draft.old.lines }
    ensures moves { moves_of draft.new.lines ≤ moves_of draft.old.lines + 1 }
{
    match (picture.facts.fact(left), picture.facts.fact(right)) {
        (Fact::Out, Fact::Out) => make_one(
            register_of(picture, left),
            register_of(picture, right),
            draft,
        ),
        (Fact::Out, _) => draft.line(bring_to(register_of(picture, left), picture, right)),
        (_, Fact::Out) => draft.line(bring_to(register_of(picture, right), picture, left)),
        _ => {
            let register = in_register(picture, left, draft)?;
            draft.line(Line::Unify {
                register,
                with: operand(picture, right),
            })
        }
    }
}

/// Whether after `X = Y` one word stands in the places of both.
pub fn share_word(left: u32, right: u32, picture: &Picture) -> bool {
    picture.facts.fact(left) == Fact::Out || picture.facts.fact(right) == Fact::Out
}

/// Both are one new variable.
fn make_one(left: u16, right: u16, draft: &mut Draft) -> Result<(), Memory>
    ensures steps { steps_of draft.new.lines ≡ steps_of draft.old.lines }
    ensures moves { moves_of draft.new.lines ≤ moves_of draft.old.lines + 1 }
{
    draft.line(Line::Fresh { register: right })?;
    draft.line(move_to(left, Source::Register(right)))
}
