ghost use Rattle.std.specs.Prelude.{◌≡◌, length, ◌≤◌, ◌+◌};
ghost use Rattle.unify_special.specs.Steps.{moves_of, steps_of};

use crate::draft::Draft;
use crate::make::make_compound;
use crate::operand::{constant_source, in_register, operand, register_of};
use crate::pattern::Node;
use crate::picture::Picture;
use crate::place::Place;
use crate::right_side::RightSide;
use crate::role::{Role, role_of};
use aq_term::memory::Memory;
use bam_code::line::Line;
use bam_code::signature::Signature;
use bam_code::source::Source;
use type_lattice::fact::Fact;

/// Whether a variable is a result of the procedure whose hole stands in its place.
pub fn is_hole(signature: &Signature, picture: &Picture, variable: u32) -> bool {
    matches!(role_of(signature, variable), Role::Result(_, _))
        && picture.facts.fact(variable) == Fact::Out
        && picture.places.get(variable) != Place::Nowhere
}

/// The lines of `X = T` where the place of X holds the hole of a result, which is filled here. X stands nowhere behind it. Where T is
/// a variable with a value that stands nowhere, it takes the hole over, and no line is written.
pub fn fill(
    variable: u32,
    right: &RightSide,
    picture: &mut Picture,
    draft: &mut Draft,
) -> Result<(), Memory>
    ensures facts { length picture.new.facts ≡ length picture.old.facts }
    ensures places { length picture.new.places ≡ length picture.old.places }
    ensures steps { steps_of draft.new.lines ≡ steps_of draft.old.lines }
    ensures moves { moves_of draft.new.lines ≤ moves_of draft.old.lines + 1 }
{
    match right {
        RightSide::Variable(other) => fill_with_variable(variable, *other, picture, draft)?,
        RightSide::Constant(constant) => {
            fill_with(variable, constant_source(*constant), picture, draft)?;
        }
        RightSide::Ground(number) => fill_with(variable, Source::Pool(*number), picture, draft)?,
        RightSide::Compound(nodes) => {
            fill_with_compound(variable, nodes.as_slice(), picture, draft)?;
        }
    }
    picture.places.set(variable, Place::Nowhere);
    Ok(())
}

fn fill_with_variable(
    variable: u32,
    other: u32,
    picture: &mut Picture,
    draft: &mut Draft,
) -> Result<(), Memory>
    ensures facts { length picture.new.facts ≡ length picture.old.facts }
    ensures places { length picture.new.places ≡ length picture.old.places }
    ensures steps { steps_of draft.new.lines ≡ steps_of draft.old.lines }
    ensures moves { moves_of draft.new.lines ≤ moves_of draft.old.lines + 1 }
{
    if picture.facts.fact(other) == Fact::Out {
        draft.line(Line::Fresh {
            register: register_of(picture, other),
        })?;
    } else if picture.places.get(other) == Place::Nowhere {
        let hole = picture.places.get(variable);
        picture.places.set(other, hole);
        return Ok(());
    }
    fill_with(variable, operand(picture, other), picture, draft)
}

fn fill_with_compound(
    variable: u32,
    nodes: &[Node],
    picture: &mut Picture,
    draft: &mut Draft,
) -> Result<(), Memory>
    ensures facts { length picture.new.facts ≡ length picture.old.facts }
    ensures places { length picture.new.places ≡ length picture.old.places }
    ensures steps { steps_of draft.new.lines ≡ steps_of draft.old.lines }
    ensures moves { moves_of draft.new.lines ≤ moves_of draft.old.lines + 1 }
{
    let made = draft.take_register();
    make_compound(nodes, 0, made, picture, draft)?;
    fill_with(variable, Source::Register(made), picture, draft)
}

fn fill_with(
    variable: u32,
    with: Source,
    picture: &Picture,
    draft: &mut Draft,
) -> Result<(), Memory>
    ensures steps { steps_of draft.new.lines ≡ steps_of draft.old.lines }
    ensures moves { moves_of draft.new.lines ≤ moves_of draft.old.lines + 1 }
{
    let register = in_register(picture, variable, draft)?;
    draft.line(Line::Fill { register, with })
}
