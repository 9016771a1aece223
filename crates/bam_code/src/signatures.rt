ghost use Rattle.std.specs.Prelude.{◌≡◌, ◌++◌, ◌∷◌, [], OnOk, OnErr, length};

use crate::signature::Signature;
use aq_term::memory::Memory;
use std::alloc::Global;
use std::marker::Model;

/// Signatures in the order of the text. Contracts see the list of them.
#[derive(Debug, Drop)]
pub struct Signatures {
    items: Vec<Signature>,
}

impl Model for Signatures {
    ghost use Rattle.std.specs.Prelude.{List};
    ghost use Rattle.bam_code.specs.declared.signature.Signature.{Signature};

    ghost Value = { List Signature };

    ghost view = { λ a. a.items.items };
}

impl Signatures {
    pub fn new(alloc: Global) -> Signatures
        ensures { result ≡ [] }
    {
        Signatures {
            items: Vec::new(alloc),
        }
    }

    /// The list of these items, with no copy.
    pub fn from_vec(items: Vec<Signature>) -> Signatures
        ensures { result ≡ items.items }
    {
        Signatures { items }
    }

    /// The items, with no copy.
    pub fn into_vec(self) -> Vec<Signature>
        ensures { result.items ≡ self }
    {
        let Signatures { items } = self;
        items
    }

    pub fn as_slice(&self) -> &[Signature]
        ensures { result.now ≡ self.now }
    {
        self.items.as_slice()
    }

    pub fn len(&self) -> usize
        ensures { result ≡ length self.now }
    {
        self.items.len()
    }

    /// Puts an item at the end. After want of memory the list is as it was.
    pub fn push(&mut self, item: Signature) -> Result<(), Memory>
        ensures ok { OnOk result (self.new ≡ self.old ++ item ∷ []) }
        ensures err { OnErr result (self.new ≡ self.old) }
    {
        self.items.push(item)?;
        Ok(())
    }
}
