ghost use Rattle.std.specs.Prelude.{◌≡◌, ◌++◌, ◌∷◌, [], OnOk, OnErr, length, map};
ghost use Rattle.aq_term.specs.PlainOf.{plain};

use crate::memory::Memory;
use crate::term::Term;
use std::alloc::Global;
use std::marker::Model;

/// Terms in order, or none. Contracts see the list of plain terms.
#[derive(Debug, Drop)]
pub struct Args0 {
    items: Vec<Term>,
}

impl Model for Args0 {
    ghost use Rattle.std.specs.Prelude.{List, map};
    ghost use Rattle.term_meaning.specs.Plain.{Plain};
    ghost use Rattle.term_meaning.specs.PlainCode.{coded_plains};
    ghost use Rattle.aq_term.specs.PlainOf.{plain};

    ghost Value = { List Plain };

    ghost coded = { coded_plains };

    ghost view = { λ a. map plain a.items.items };
}

impl Args0 {
    pub fn new(alloc: Global) -> Args0
        ensures { result ≡ [] }
    {
        Args0 {
            items: Vec::new(alloc),
        }
    }

    /// The list of these terms, with no copy.
    pub fn from_vec(items: Vec<Term>) -> Args0
        ensures { result ≡ map plain items.items }
    {
        Args0 { items }
    }

    /// The terms, with no copy.
    pub fn into_vec(self) -> Vec<Term>
        ensures { map plain result.items ≡ self }
    {
        let Args0 { items } = self;
        items
    }

    pub fn as_slice(&self) -> &[Term]
        ensures { map plain result.now ≡ self.now }
    {
        self.items.as_slice()
    }

    pub fn len(&self) -> usize
        ensures { result ≡ length self.now }
    {
        self.items.len()
    }

    /// Puts a term at the end. After want of memory the list is as it was.
    pub fn push(&mut self, term: Term) -> Result<(), Memory>
        ensures ok { OnOk result (self.new ≡ self.old ++ plain term ∷ []) }
        ensures err { OnErr result (self.new ≡ self.old) }
    {
        self.items.push(term)?;
        Ok(())
    }
}
