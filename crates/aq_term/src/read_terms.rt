ghost use Rattle.std.specs.Prelude.{◌≡◌, ◌++◌, ◌∷◌, [], OnOk, OnErr, length};

use crate::memory::Memory;
use crate::read_term::ReadTerm;
use std::alloc::Global;
use std::marker::Model;

/// Terms as they were read, in the order of the text. Contracts see the list of them.
#[derive(Debug, Drop)]
pub struct ReadTerms {
    items: Vec<ReadTerm>,
}

impl Model for ReadTerms {
    ghost use Rattle.std.specs.Prelude.{List};
    ghost use Rattle.aq_term.specs.declared.read_term.ReadTerm.{ReadTerm};

    ghost Value = { List ReadTerm };

    ghost use Rattle.aq_term.specs.contracts.read_term.ReadTerm as read_term;
    ghost use Rattle.std.specs.Coded.{coded_list};

    ghost coded = { coded_list read_term.the_row.coded };

    ghost view = { λ a. a.items.items };
}

impl ReadTerms {
    pub fn new(alloc: Global) -> ReadTerms
        ensures { result ≡ [] }
    {
        ReadTerms {
            items: Vec::new(alloc),
        }
    }

    /// The list of these items, with no copy.
    pub fn from_vec(items: Vec<ReadTerm>) -> ReadTerms
        ensures { result ≡ items.items }
    {
        ReadTerms { items }
    }

    /// The items, with no copy.
    pub fn into_vec(self) -> Vec<ReadTerm>
        ensures { result.items ≡ self }
    {
        let ReadTerms { items } = self;
        items
    }

    pub fn as_slice(&self) -> &[ReadTerm]
        ensures { result.now ≡ self.now }
    {
        self.items.as_slice()
    }

    pub fn len(&self) -> usize
        ensures { result ≡ length self.now }
    {
        self.items.len()
    }

    /// Puts an item at the end. After want of memory the list is as it was.
    pub fn push(&mut self, item: ReadTerm) -> Result<(), Memory>
        ensures ok { OnOk result (self.new ≡ self.old ++ item ∷ []) }
        ensures err { OnErr result (self.new ≡ self.old) }
    {
        self.items.push(item)?;
        Ok(())
    }
}
