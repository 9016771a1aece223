ghost use Rattle.std.specs.Prelude.{◌≡◌, ◌++◌, ◌∷◌, [], OnOk, OnErr, length};

use crate::predicate::Predicate;
use aq_term::memory::Memory;
use std::alloc::Global;
use std::marker::Model;

/// The predicates of a program, in the order of their first clauses. Contracts see the list of them.
#[derive(Debug, Drop)]
pub struct Predicates {
    items: Vec<Predicate>,
}

impl Model for Predicates {
    ghost use Rattle.std.specs.Prelude.{List};
    ghost use Rattle.source_program.specs.declared.predicate.Predicate.{Predicate};

    ghost Value = { List Predicate };

    ghost use Rattle.source_program.specs.contracts.predicate.Predicate as item;
    ghost use Rattle.std.specs.Coded.{coded_list};

    ghost coded = { coded_list item.the_row.coded };

    ghost view = { λ a. a.items.items };
}

impl Predicates {
    pub fn new(alloc: Global) -> Predicates
        ensures { result ≡ [] }
    {
        Predicates {
            items: Vec::new(alloc),
        }
    }

    /// The list of these items, with no copy.
    pub fn from_vec(items: Vec<Predicate>) -> Predicates
        ensures { result ≡ items.items }
    {
        Predicates { items }
    }

    /// The items, with no copy.
    pub fn into_vec(self) -> Vec<Predicate>
        ensures { result.items ≡ self }
    {
        let Predicates { items } = self;
        items
    }

    pub fn as_slice(&self) -> &[Predicate]
        ensures { result.now ≡ self.now }
    {
        self.items.as_slice()
    }

    pub fn len(&self) -> usize
        ensures { result ≡ length self.now }
    {
        self.items.len()
    }

    /// Puts an item at the end. After want of memory the list is as it was.
    pub fn push(&mut self, item: Predicate) -> Result<(), Memory>
        ensures ok { OnOk result (self.new ≡ self.old ++ item ∷ []) }
        ensures err { OnErr result (self.new ≡ self.old) }
    {
        self.items.push(item)?;
        Ok(())
    }
}
