ghost use Rattle.std.specs.Prelude.{◌≡◌, ◌++◌, ◌∷◌, [], OnOk, OnErr, length};

use aq_term::memory::Memory;
use bam_types::verified::Verified;
use std::alloc::Global;
use std::marker::Model;

/// Parts that are accepted, in the order of the text. Contracts see the list of their codes.
#[derive(Debug, Drop)]
pub struct VerifiedParts {
    items: Vec<Verified>,
}

impl Model for VerifiedParts {
    ghost use Rattle.std.specs.Prelude.{List};
    ghost use Rattle.bam_code.specs.declared.code.Code.{Code};

    ghost Value = { List Code };

    ghost use Rattle.bam_code.specs.contracts.code.Code as whole_code;
    ghost use Rattle.std.specs.Coded.{coded_list};

    ghost coded = { coded_list whole_code.the_row.coded };

    ghost view = { λ a. a.items.items };
}

impl VerifiedParts {
    pub fn new(alloc: Global) -> VerifiedParts
        ensures { result ≡ [] }
    {
        VerifiedParts {
            items: Vec::new(alloc),
        }
    }

    /// The list of these parts, with no copy.
    pub fn from_vec(items: Vec<Verified>) -> VerifiedParts
        ensures { result ≡ items.items }
    {
        VerifiedParts { items }
    }

    /// The parts, with no copy.
    pub fn into_vec(self) -> Vec<Verified>
        ensures { result.items ≡ self }
    {
        let VerifiedParts { items } = self;
        items
    }

    pub fn as_slice(&self) -> &[Verified]
        ensures { result.now ≡ self.now }
    {
        self.items.as_slice()
    }

    pub fn len(&self) -> usize
        ensures { result ≡ length self.now }
    {
        self.items.len()
    }

    /// Puts a part at the end. After want of memory the list is as it was.
    pub fn push(&mut self, part: Verified) -> Result<(), Memory>
        ensures ok { OnOk result (self.new ≡ self.old ++ part ∷ []) }
        ensures err { OnErr result (self.new ≡ self.old) }
    {
        self.items.push(part)?;
        Ok(())
    }
}
