ghost use Rattle.std.specs.Prelude.{◌≡◌, length};
ghost use Rattle.unify_special.specs.Steps.{moves_of, steps_of};

use crate::draft::Draft;
use crate::picture::Picture;
use crate::place::Place;
use aq_term::memory::Memory;
use bam_code::line::Line;
use type_lattice::fact::Fact;

/// Takes notice of one more occurrence of a variable in a goal. One that is out gets a register at its first occurrence; at its
/// second one it is put into a new cell, and may be anything from then on.
pub fn introduce(variable: u32, picture: &mut Picture, draft: &mut Draft) -> Result<(), Memory>
    ensures facts { length picture.new.facts ≡ length picture.old.facts }
    ensures places { length picture.new.places ≡ length picture.old.places }
    ensures steps { steps_of draft.new.lines ≡ steps_of draft.old.lines }
    ensures moves { moves_of draft.new.lines ≡ moves_of draft.old.lines }
{
    if picture.facts.fact(variable) != Fact::Out {
        return Ok(());
    }
    match picture.places.get(variable) {
        Place::Register(register) => {
            draft.line(Line::Fresh { register })?;
            picture.facts.set(variable, Fact::Any);
        }
        _ => {
            let register = draft.take_register();
            picture.places.set(variable, Place::Register(register));
        }
    }
    Ok(())
}

/// Takes notice of the occurrences of variables, in order.
pub fn introduce_all(
    variables: &[u32],
    picture: &mut Picture,
    draft: &mut Draft,
) -> Result<(), Memory>
    ensures facts { length picture.new.facts ≡ length picture.old.facts }
    ensures places { length picture.new.places ≡ length picture.old.places }
    ensures steps { steps_of draft.new.lines ≡ steps_of draft.old.lines }
    ensures moves { moves_of draft.new.lines ≡ moves_of draft.old.lines }
{
    for variable in variables {
        introduce(*variable, picture, draft)?;
    }
    Ok(())
}
