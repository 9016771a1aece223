ghost use Rattle.std.specs.Prelude.{◌≡◌, IfOk};
ghost use Rattle.term_meaning.specs.Plain.{nodes, depth, is_ground};
ghost use Rattle.aq_term.specs.PlainOf.{plain, capped};

use crate::args::Args;
use crate::atom::Atom;
use crate::memory::Memory;
use std::alloc::Global;

/// A term. A variable has its number in its clause or query, from 0.
///
/// The calls below, and dropping a term, go as deep in the stack as the term is deep.
#[cycle(term)]
#[derive(Debug, Drop)]
pub enum Term {
    Var(u32),
    Int(i64),
    Atom(Atom),
    Compound(Atom, Args),
}

impl Term {
    /// How many variables, integers, atoms and compounds it is made of, or the greatest `u64` where there are more.
    #[cycle(nodes)]
    pub fn nodes(&self) -> u64
        ensures { result ≡ capped (nodes (plain self.now)) }
    {
        match self {
            Term::Compound(_, args) => args.nodes().saturating_add(1),
            _ => 1,
        }
    }

    /// 1, and for a compound one more than the depth of its deepest argument, or the greatest `u64` where that is more.
    #[cycle(depth)]
    pub fn depth(&self) -> u64
        ensures { result ≡ capped (depth (plain self.now)) }
    {
        match self {
            Term::Compound(_, args) => args.depth().saturating_add(1),
            _ => 1,
        }
    }

    /// Whether no variable is in it.
    #[cycle(is_ground)]
    pub fn is_ground(&self) -> bool
        ensures { result ≡ is_ground (plain self.now) }
    {
        match self {
            Term::Var(_) => false,
            Term::Compound(_, args) => args.are_ground(),
            _ => true,
        }
    }

    /// A term that is equal to it.
    #[cycle(copy)]
    pub fn copy(&self, alloc: Global) -> Result<Term, Memory>
        ensures { IfOk result (λ term. term ≡ self.now) }
    {
        Ok(match self {
            Term::Var(number) => Term::Var(*number),
            Term::Int(value) => Term::Int(*value),
            Term::Atom(name) => Term::Atom(*name),
            Term::Compound(name, args) => Term::Compound(*name, args.copy(alloc)?),
        })
    }
}
