ghost use Rattle.std.specs.Prelude.{◌≡◌, ◌++◌, ◌∷◌, [], OnOk, OnErr, length, map};
ghost use Rattle.aq_term.specs.PlainOf.{plain};

use crate::memory::Memory;
use crate::term::Term;
use std::alloc::Global;
use std::marker::Model;

/// The ground compounds that a code names by their places, from 0. Contracts see the list of plain terms.
#[derive(Debug, Drop)]
pub struct Pool {
    items: Vec<Term>,
}

impl Model for Pool {
    ghost use Rattle.std.specs.Prelude.{List, map};
    ghost use Rattle.term_meaning.specs.Plain.{Plain};
    ghost use Rattle.term_meaning.specs.PlainCode.{coded_plains};
    ghost use Rattle.aq_term.specs.PlainOf.{plain};

    ghost Value = { List Plain };

    ghost coded = { coded_plains };

    ghost view = { λ a. map plain a.items.items };
}

impl Pool {
    pub fn new(alloc: Global) -> Pool
        ensures { result ≡ [] }
    {
        Pool {
            items: Vec::new(alloc),
        }
    }

    /// The list of these terms, with no copy.
    pub fn from_vec(items: Vec<Term>) -> Pool
        ensures { result ≡ map plain items.items }
    {
        Pool { items }
    }

    /// The terms, with no copy.
    pub fn into_vec(self) -> Vec<Term>
        ensures { map plain result.items ≡ self }
    {
        let Pool { items } = self;
        items
    }

    pub fn as_slice(&self) -> &[Term]
        ensures { map plain result.now ≡ self.now }
    {
        self.items.as_slice()
    }

    pub fn len(&self) -> usize
        ensures { result ≡ length self.now }
    {
        self.items.len()
    }

    /// Puts a term at the end. After want of memory the list is as it was.
    pub fn push(&mut self, term: Term) -> Result<(), Memory>
        ensures ok { OnOk result (self.new ≡ self.old ++ plain term ∷ []) }
        ensures err { OnErr result (self.new ≡ self.old) }
    {
        self.items.push(term)?;
        Ok(())
    }
}
