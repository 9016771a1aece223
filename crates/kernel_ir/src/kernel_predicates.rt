ghost use Rattle.std.specs.Prelude.{◌≡◌, ◌++◌, ◌∷◌, [], OnOk, OnErr, length};

use crate::kernel_predicate::KernelPredicate;
use aq_term::memory::Memory;
use std::alloc::Global;
use std::marker::Model;

/// The predicates of a kernel program, in order. Contracts see the list of them.
#[derive(Debug, Drop)]
pub struct KernelPredicates {
    items: Vec<KernelPredicate>,
}

impl Model for KernelPredicates {
    ghost use Rattle.std.specs.Prelude.{List};
    ghost use Rattle.kernel_ir.specs.declared.kernel_predicate.KernelPredicate.{KernelPredicate};

    ghost Value = { List KernelPredicate };

    ghost use Rattle.kernel_ir.specs.contracts.kernel_predicate.KernelPredicate as item;
    ghost use Rattle.std.specs.Coded.{coded_list};

    ghost coded = { coded_list item.the_row.coded };

    ghost view = { λ a. a.items.items };
}

impl KernelPredicates {
    pub fn new(alloc: Global) -> KernelPredicates
        ensures { result ≡ [] }
    {
        KernelPredicates {
            items: Vec::new(alloc),
        }
    }

    /// The list of these items, with no copy.
    pub fn from_vec(items: Vec<KernelPredicate>) -> KernelPredicates
        ensures { result ≡ items.items }
    {
        KernelPredicates { items }
    }

    /// The items, with no copy.
    pub fn into_vec(self) -> Vec<KernelPredicate>
        ensures { result.items ≡ self }
    {
        let KernelPredicates { items } = self;
        items
    }

    pub fn as_slice(&self) -> &[KernelPredicate]
        ensures { result.now ≡ self.now }
    {
        self.items.as_slice()
    }

    pub fn len(&self) -> usize
        ensures { result ≡ length self.now }
    {
        self.items.len()
    }

    /// Puts an item at the end. After want of memory the list is as it was.
    pub fn push(&mut self, item: KernelPredicate) -> Result<(), Memory>
        ensures ok { OnOk result (self.new ≡ self.old ++ item ∷ []) }
        ensures err { OnErr result (self.new ≡ self.old) }
    {
        self.items.push(item)?;
        Ok(())
    }
}
