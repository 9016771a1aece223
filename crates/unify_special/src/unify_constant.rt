ghost use Rattle.std.specs.Prelude.{◌≡◌, length, ◌≤◌, ◌+◌};
ghost use Rattle.unify_special.specs.Steps.{moves_of, steps_of};

use crate::base::{Base, Parts};
use crate::draft::Draft;
use crate::equal_constant::{equal_constant, match_constant};
use crate::learner::{learner, test_slot};
use crate::operand::{constant_source, in_register, move_to, open_variable, register_of};
use crate::picture::Picture;
use crate::role::mark;
use aq_term::builtin::Builtin;
use aq_term::memory::Memory;
use bam_code::constant::Constant;
use bam_code::line::Line;
use bam_code::signature::Signature;
use bam_code::source::Source;
use type_lattice::fact::Fact;

/// The lines of `X = c`, c a constant. An X that is out has a register, in which nothing stands yet.
pub fn unify_constant(
    variable: u32,
    constant: Constant,
    signature: &Signature,
    picture: &mut Picture,
    draft: &mut Draft,
) -> Result<(), Memory>
    ensures facts { length picture.new.facts ≡ length picture.old.facts }
    ensures places { length picture.new.places ≡ length picture.old.places }
    ensures steps { steps_of draft.new.lines ≡ steps_of draft.old.lines }
    ensures moves { moves_of draft.new.lines ≤ moves_of draft.old.lines + 2 }
{
    match picture.facts.fact(variable) {
        Fact::Out => draft.line(move_to(register_of(picture, variable), constant_source(constant))),
        Fact::Any => equal_any(variable, constant, signature, picture, draft),
        _ => {
            let register = open_variable(picture, variable, draft)?;
            match_constant(register, constant, draft)
        }
    }
}

/// X may be unbound.
fn equal_any(
    variable: u32,
    constant: Constant,
    signature: &Signature,
    picture: &mut Picture,
    draft: &mut Draft,
) -> Result<(), Memory>
    ensures facts { length picture.new.facts ≡ length picture.old.facts }
    ensures places { length picture.new.places ≡ length picture.old.places }
    ensures steps { steps_of draft.new.lines ≡ steps_of draft.old.lines }
    ensures moves { moves_of draft.new.lines ≤ moves_of draft.old.lines + 2 }
{
    let learns = learner(signature, picture, variable);
    let base = Base {
        register: open_variable(picture, variable, draft)?,
        parts: Parts::Any,
        mark: mark(signature, variable),
        learns,
    };
    equal_constant(base, constant, signature, picture, draft)?;
    if learns.is_none() {
        test_slot(variable, Builtin::Atomic, picture, draft)?;
    }
    Ok(())
}

/// The lines of `X = g`, g a compound without variables, the pool's entry of this number.
pub fn unify_ground(
    variable: u32,
    number: u32,
    picture: &Picture,
    draft: &mut Draft,
) -> Result<(), Memory>
    ensures steps { steps_of draft.new.lines ≡ steps_of draft.old.lines }
    ensures moves { moves_of draft.new.lines ≤ moves_of draft.old.lines + 1 }
{
    let with = Source::Pool(number);
    if picture.facts.fact(variable) == Fact::Out {
        return draft.line(move_to(register_of(picture, variable), with));
    }
    let register = in_register(picture, variable, draft)?;
    draft.line(Line::Unify { register, with })
}
