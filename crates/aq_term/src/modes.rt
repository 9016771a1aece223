ghost use Rattle.std.specs.Prelude.{◌≡◌, ◌++◌, ◌∷◌, [], OnOk, OnErr, length};

use crate::memory::Memory;
use crate::mode::Mode;
use smallvec::SmallVec;
use std::alloc::Global;
use std::marker::Model;

/// The modes of an entry's arguments, in their order. Contracts see the list of them.
#[derive(Debug, Drop)]
pub struct Modes {
    items: SmallVec<Mode, 8>,
}

impl Model for Modes {
    ghost use Rattle.std.specs.Prelude.{List};
    ghost use Rattle.aq_term.specs.declared.mode.Mode.{Mode};

    ghost Value = { List Mode };

    ghost view = { λ a. a.items.items };
}

impl Modes {
    pub fn new(alloc: Global) -> Modes
        ensures { result ≡ [] }
    {
        Modes {
            items: SmallVec::new(alloc),
        }
    }

    /// The list of these items, with no copy.
    pub fn from_vec(items: Vec<Mode>) -> Modes
        ensures { result ≡ items.items }
    {
        Modes {
            items: SmallVec::from_vec(items),
        }
    }

    pub fn as_slice(&self) -> &[Mode]
        ensures { result.now ≡ self.now }
    {
        self.items.as_slice()
    }

    pub fn len(&self) -> usize
        ensures { result ≡ length self.now }
    {
        self.items.len()
    }

    /// Puts an item at the end. After want of memory the list is as it was.
    pub fn push(&mut self, item: Mode) -> Result<(), Memory>
        ensures ok { OnOk result (self.new ≡ self.old ++ item ∷ []) }
        ensures err { OnErr result (self.new ≡ self.old) }
    {
        self.items.push(item)?;
        Ok(())
    }
}
