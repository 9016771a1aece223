ghost use Rattle.std.specs.Prelude.{◌≡◌, ◌++◌, ◌∷◌, [], OnOk, OnErr, length};

use crate::entry::Entry;
use crate::memory::Memory;
use std::alloc::Global;
use std::marker::Model;

/// Entry declarations in the order of the text. Contracts see the list of them.
#[derive(Debug, Drop)]
pub struct Entries {
    items: Vec<Entry>,
}

impl Model for Entries {
    ghost use Rattle.std.specs.Prelude.{List};
    ghost use Rattle.aq_term.specs.declared.entry.Entry.{Entry};

    ghost Value = { List Entry };

    ghost view = { λ a. a.items.items };
}

impl Entries {
    pub fn new(alloc: Global) -> Entries
        ensures { result ≡ [] }
    {
        Entries {
            items: Vec::new(alloc),
        }
    }

    /// The list of these items, with no copy.
    pub fn from_vec(items: Vec<Entry>) -> Entries
        ensures { result ≡ items.items }
    {
        Entries { items }
    }

    /// The items, with no copy.
    pub fn into_vec(self) -> Vec<Entry>
        ensures { result.items ≡ self }
    {
        let Entries { items } = self;
        items
    }

    pub fn as_slice(&self) -> &[Entry]
        ensures { result.now ≡ self.now }
    {
        self.items.as_slice()
    }

    pub fn len(&self) -> usize
        ensures { result ≡ length self.now }
    {
        self.items.len()
    }

    /// Puts an item at the end. After want of memory the list is as it was.
    pub fn push(&mut self, item: Entry) -> Result<(), Memory>
        ensures ok { OnOk result (self.new ≡ self.old ++ item ∷ []) }
        ensures err { OnErr result (self.new ≡ self.old) }
    {
        self.items.push(item)?;
        Ok(())
    }
}
