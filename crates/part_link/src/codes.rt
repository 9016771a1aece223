ghost use Rattle.std.specs.Prelude.{◌≡◌, ◌++◌, ◌∷◌, [], OnOk, OnErr, length};

use aq_term::memory::Memory;
use bam_code::code::Code;
use std::alloc::Global;
use std::marker::Model;

/// The codes of parts, in order. Contracts see the list of them.
#[derive(Debug, Drop)]
pub struct Codes {
    items: Vec<Code>,
}

impl Model for Codes {
    ghost use Rattle.std.specs.Prelude.{List};
    ghost use Rattle.bam_code.specs.declared.code.Code.{Code};

    ghost Value = { List Code };

    ghost use Rattle.bam_code.specs.contracts.code.Code as code;
    ghost use Rattle.std.specs.Coded.{coded_list};

    ghost coded = { coded_list code.the_row.coded };

    ghost view = { λ a. a.items.items };
}

impl Codes {
    pub fn new(alloc: Global) -> Codes
        ensures { result ≡ [] }
    {
        Codes {
            items: Vec::new(alloc),
        }
    }

    /// The list of these items, with no copy.
    pub fn from_vec(items: Vec<Code>) -> Codes
        ensures { result ≡ items.items }
    {
        Codes { items }
    }

    /// The items, with no copy.
    pub fn into_vec(self) -> Vec<Code>
        ensures { result.items ≡ self }
    {
        let Codes { items } = self;
        items
    }

    pub fn as_slice(&self) -> &[Code]
        ensures { result.now ≡ self.now }
    {
        self.items.as_slice()
    }

    pub fn len(&self) -> usize
        ensures { result ≡ length self.now }
    {
        self.items.len()
    }

    /// Puts an item at the end. After want of memory the list is as it was.
    pub fn push(&mut self, item: Code) -> Result<(), Memory>
        ensures ok { OnOk result (self.new ≡ self.old ++ item ∷ []) }
        ensures err { OnErr result (self.new ≡ self.old) }
    {
        self.items.push(item)?;
        Ok(())
    }
}
