ghost use Rattle.std.specs.Prelude.{◌≡◌, ◌++◌, ◌∷◌, [], OnOk, OnErr, length};

use crate::procedure::Proc;
use aq_term::memory::Memory;
use std::alloc::Global;
use std::marker::Model;

/// Procedures in the order of the text. Contracts see the list of them.
#[derive(Debug, Drop)]
pub struct Procs {
    items: Vec<Proc>,
}

impl Model for Procs {
    ghost use Rattle.std.specs.Prelude.{List};
    ghost use Rattle.bam_code.specs.declared.procedure.Proc.{Proc};

    ghost Value = { List Proc };

    ghost view = { λ a. a.items.items };
}

impl Procs {
    pub fn new(alloc: Global) -> Procs
        ensures { result ≡ [] }
    {
        Procs {
            items: Vec::new(alloc),
        }
    }

    /// The list of these items, with no copy.
    pub fn from_vec(items: Vec<Proc>) -> Procs
        ensures { result ≡ items.items }
    {
        Procs { items }
    }

    /// The items, with no copy.
    pub fn into_vec(self) -> Vec<Proc>
        ensures { result.items ≡ self }
    {
        let Procs { items } = self;
        items
    }

    pub fn as_slice(&self) -> &[Proc]
        ensures { result.now ≡ self.now }
    {
        self.items.as_slice()
    }

    pub fn len(&self) -> usize
        ensures { result ≡ length self.now }
    {
        self.items.len()
    }

    /// Puts an item at the end. After want of memory the list is as it was.
    pub fn push(&mut self, item: Proc) -> Result<(), Memory>
        ensures ok { OnOk result (self.new ≡ self.old ++ item ∷ []) }
        ensures err { OnErr result (self.new ≡ self.old) }
    {
        self.items.push(item)?;
        Ok(())
    }
}
