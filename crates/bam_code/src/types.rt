ghost use Rattle.std.specs.Prelude.{◌≡◌, ◌++◌, ◌∷◌, [], OnOk, OnErr, length};

use crate::result_type::ResultType;
use aq_term::memory::Memory;
use std::alloc::Global;
use std::marker::Model;

/// The result types of a procedure, in the order of its arguments. Contracts see the list of them.
#[derive(Debug, Drop)]
pub struct Types {
    items: Vec<ResultType>,
}

impl Model for Types {
    ghost use Rattle.std.specs.Prelude.{List};
    ghost use Rattle.bam_code.specs.declared.result_type.ResultType.{ResultType};

    ghost Value = { List ResultType };

    ghost view = { λ a. a.items.items };
}

impl Types {
    pub fn new(alloc: Global) -> Types
        ensures { result ≡ [] }
    {
        Types {
            items: Vec::new(alloc),
        }
    }

    /// The list of these items, with no copy.
    pub fn from_vec(items: Vec<ResultType>) -> Types
        ensures { result ≡ items.items }
    {
        Types { items }
    }

    /// The items, with no copy.
    pub fn into_vec(self) -> Vec<ResultType>
        ensures { result.items ≡ self }
    {
        let Types { items } = self;
        items
    }

    pub fn as_slice(&self) -> &[ResultType]
        ensures { result.now ≡ self.now }
    {
        self.items.as_slice()
    }

    pub fn len(&self) -> usize
        ensures { result ≡ length self.now }
    {
        self.items.len()
    }

    /// Puts an item at the end. After want of memory the list is as it was.
    pub fn push(&mut self, item: ResultType) -> Result<(), Memory>
        ensures ok { OnOk result (self.new ≡ self.old ++ item ∷ []) }
        ensures err { OnErr result (self.new ≡ self.old) }
    {
        self.items.push(item)?;
        Ok(())
    }
}
