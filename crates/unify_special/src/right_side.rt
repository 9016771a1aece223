ghost use Rattle.std.specs.Prelude.{◌≡◌, length};

use crate::draft::Draft;
use crate::ground_pool::GroundPool;
use crate::pattern::{Node, pattern_of, void_unwanted};
use crate::picture::Picture;
use crate::wanted::Wanted;
use aq_term::memory::Memory;
use aq_term::term::Term;
use bam_code::constant::Constant;
use std::alloc::Global;

/// The T of a goal `X = T`.
#[derive(Debug, Drop)]
pub enum RightSide {
    Variable(u32),
    Constant(Constant),
    /// A compound without variables, which is the pool's entry of this number.
    Ground(u32),
    /// A compound with variables.
    Compound(Vec<Node>),
}

/// The right side that is this term. Those of its variables that are out have registers and occur once.
pub fn right_side(
    alloc: Global,
    term: &Term,
    picture: &mut Picture,
    pool: &mut GroundPool,
    draft: &mut Draft,
) -> Result<RightSide, Memory>
    ensures facts { length picture.new.facts ≡ length picture.old.facts }
    ensures places { length picture.new.places ≡ length picture.old.places }
    ensures lines { draft.new.lines ≡ draft.old.lines }
{
    match term {
        Term::Var(variable) => Ok(RightSide::Variable(*variable)),
        Term::Int(value) => Ok(RightSide::Constant(Constant::Int(*value))),
        Term::Atom(name) => Ok(RightSide::Constant(Constant::Atom(*name))),
        Term::Compound(_, _) => compound(pattern_of(alloc, term, picture, pool, draft)?),
    }
}

impl RightSide {
    /// Takes the registers from those variables that are out, occur once and are in no later goal.
    pub fn void_unwanted(&mut self, wanted: Wanted<'_>, picture: &mut Picture)
        ensures facts { length picture.new.facts ≡ length picture.old.facts }
        ensures places { length picture.new.places ≡ length picture.old.places }
    {
        if let RightSide::Compound(nodes) = self {
            void_unwanted(nodes, wanted, picture);
        }
    }
}

fn compound(nodes: Vec<Node>) -> Result<RightSide, Memory> {
    if let [Node::Ground(number)] = nodes.as_slice() {
        return Ok(RightSide::Ground(*number));
    }
    Ok(RightSide::Compound(nodes))
}
