ghost use Rattle.std.specs.Prelude.{◌≡◌, ◌++◌, ◌∷◌, [], OnOk, OnErr, length};

use crate::arg_type::ArgType;
use aq_term::memory::Memory;
use std::alloc::Global;
use std::marker::Model;

/// The argument types of a procedure, in order. Contracts see the list of them.
#[derive(Debug, Drop)]
pub struct ArgTypes {
    items: Vec<ArgType>,
}

impl Model for ArgTypes {
    ghost use Rattle.std.specs.Prelude.{List};
    ghost use Rattle.bam_code.specs.declared.arg_type.ArgType.{ArgType};

    ghost Value = { List ArgType };

    ghost view = { λ a. a.items.items };
}

impl ArgTypes {
    pub fn new(alloc: Global) -> ArgTypes
        ensures { result ≡ [] }
    {
        ArgTypes {
            items: Vec::new(alloc),
        }
    }

    /// The list of these items, with no copy.
    pub fn from_vec(items: Vec<ArgType>) -> ArgTypes
        ensures { result ≡ items.items }
    {
        ArgTypes { items }
    }

    /// The items, with no copy.
    pub fn into_vec(self) -> Vec<ArgType>
        ensures { result.items ≡ self }
    {
        let ArgTypes { items } = self;
        items
    }

    pub fn as_slice(&self) -> &[ArgType]
        ensures { result.now ≡ self.now }
    {
        self.items.as_slice()
    }

    pub fn len(&self) -> usize
        ensures { result ≡ length self.now }
    {
        self.items.len()
    }

    /// Puts an item at the end. After want of memory the list is as it was.
    pub fn push(&mut self, item: ArgType) -> Result<(), Memory>
        ensures ok { OnOk result (self.new ≡ self.old ++ item ∷ []) }
        ensures err { OnErr result (self.new ≡ self.old) }
    {
        self.items.push(item)?;
        Ok(())
    }
}
