ghost use Rattle.std.specs.Prelude.{◌≡◌, length, ◌≤◌, ◌+◌};
ghost use Rattle.unify_special.specs.Steps.{moves_of, steps_of};

use crate::base::{Base, Parts};
use crate::draft::Draft;
use crate::learner::{learner, test_slot};
use crate::make::make_compound;
use crate::operand::{open_variable, register_of};
use crate::pattern::Node;
use crate::picture::Picture;
use crate::read::{bind_made, read_compound, read_or_make};
use crate::role::mark;
use aq_term::builtin::Builtin;
use aq_term::memory::Memory;
use bam_code::signature::Signature;
use type_lattice::fact::Fact;

/// The lines of `X = T`, T a compound with variables. An X that is out has a register, in which nothing stands yet.
pub fn unify_compound(
    variable: u32,
    nodes: &[Node],
    signature: &Signature,
    picture: &mut Picture,
    draft: &mut Draft,
) -> Result<(), Memory>
    ensures facts { length picture.new.facts ≡ length picture.old.facts }
    ensures places { length picture.new.places ≡ length picture.old.places }
    ensures steps { steps_of draft.new.lines ≡ steps_of draft.old.lines }
    ensures moves { moves_of draft.new.lines ≤ moves_of draft.old.lines + 2 }
{
    let fact = picture.facts.fact(variable);
    match fact {
        Fact::Out => make_compound(nodes, 0, register_of(picture, variable), picture, draft),
        Fact::Any => read_any(variable, nodes, signature, picture, draft),
        _ => {
            let base = Base {
                register: open_variable(picture, variable, draft)?,
                parts: Parts::of(fact),
                mark: mark(signature, variable),
                learns: None,
            };
            read_compound(nodes, 0, base, signature, picture, draft)
        }
    }
}

/// X may be unbound.
fn read_any(
    variable: u32,
    nodes: &[Node],
    signature: &Signature,
    picture: &mut Picture,
    draft: &mut Draft,
) -> Result<(), Memory>
    ensures facts { length picture.new.facts ≡ length picture.old.facts }
    ensures places { length picture.new.places ≡ length picture.old.places }
    ensures steps { steps_of draft.new.lines ≡ steps_of draft.old.lines }
    ensures moves { moves_of draft.new.lines ≤ moves_of draft.old.lines + 2 }
{
    let learns = learner(signature, picture, variable);
    let base = Base {
        register: open_variable(picture, variable, draft)?,
        parts: Parts::Any,
        mark: mark(signature, variable),
        learns,
    };
    read_or_make(nodes, 0, base, signature, picture, draft)?;
    if learns.is_none() {
        test_slot(variable, Builtin::Nonvar, picture, draft)?;
    }
    Ok(())
}

/// The lines of `X = T` where X was out and is in T. It has been put into a cell, which is made equal to T.
pub fn bind_compound(
    variable: u32,
    nodes: &[Node],
    picture: &mut Picture,
    draft: &mut Draft,
) -> Result<(), Memory>
    ensures facts { length picture.new.facts ≡ length picture.old.facts }
    ensures places { length picture.new.places ≡ length picture.old.places }
    ensures steps { steps_of draft.new.lines ≡ steps_of draft.old.lines }
    ensures moves { moves_of draft.new.lines ≡ moves_of draft.old.lines }
{
    bind_made(nodes, 0, register_of(picture, variable), picture, draft)
}
