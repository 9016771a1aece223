ghost use Rattle.std.specs.Prelude.{◌≡◌};
ghost use Rattle.prolog_reader.specs.Terms.{graver, simple, of_depth};
ghost use Rattle.prolog_reader.specs.Faults.{read_fault};

use crate::fault::ReadFault;
use crate::limits::DEEPEST;
use aq_term::term::Term;

/// A fault of a term that is well formed otherwise, the gravest first.
#[derive(Clone, Copy, Debug, PartialEq, Eq)]
pub enum TermFault {
    IntRange,
    ArityLimit,
    Depth,
}

impl TermFault {
    /// The fault of a term that has both.
    pub fn and(self, other: TermFault) -> TermFault
        ensures { result ≡ graver self other }
    {
        match self {
            TermFault::IntRange => TermFault::IntRange,
            TermFault::ArityLimit => match other {
                TermFault::IntRange => TermFault::IntRange,
                TermFault::ArityLimit | TermFault::Depth => TermFault::ArityLimit,
            },
            TermFault::Depth => other,
        }
    }

    /// The fault of the whole clause.
    pub fn of_clause(self) -> ReadFault
        ensures { result ≡ read_fault self }
    {
        match self {
            TermFault::IntRange => ReadFault::IntRange,
            TermFault::ArityLimit => ReadFault::ArityLimit,
            TermFault::Depth => ReadFault::Depth,
        }
    }
}

/// A term with its depth.
#[derive(Debug, Drop)]
pub struct Measured {
    pub term: Term,
    pub depth: u64,
}

/// What was read: a term, or the gravest fault in it. So no term that is too deep is ever kept.
#[derive(Debug, Drop)]
pub enum Built {
    Whole(Measured),
    Faulty(TermFault),
}

impl Built {
    /// A variable, an integer or an atom.
    pub fn simple(term: Term) -> Built
        ensures { result ≡ simple term }
    {
        Built::Whole(Measured { term, depth: 1 })
    }

    /// A term of this depth.
    pub fn of_depth(term: Term, depth: u64) -> Built
        ensures { result ≡ of_depth term depth }
    {
        if depth > DEEPEST {
            Built::Faulty(TermFault::Depth)
        } else {
            Built::Whole(Measured { term, depth })
        }
    }
}
