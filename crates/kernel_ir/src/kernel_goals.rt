ghost use Rattle.std.specs.Prelude.{◌≡◌, ◌++◌, ◌∷◌, [], OnOk, OnErr, length};

use crate::kernel_goal::KernelGoal;
use aq_term::memory::Memory;
use std::alloc::Global;
use std::marker::Model;

/// The goals of a kernel clause, in order. Contracts see the list of them.
#[derive(Debug, Drop)]
pub struct KernelGoals {
    items: Vec<KernelGoal>,
}

impl Model for KernelGoals {
    ghost use Rattle.std.specs.Prelude.{List};
    ghost use Rattle.kernel_ir.specs.declared.kernel_goal.KernelGoal.{KernelGoal};

    ghost Value = { List KernelGoal };

    ghost use Rattle.kernel_ir.specs.contracts.kernel_goal.KernelGoal as item;
    ghost use Rattle.std.specs.Coded.{coded_list};

    ghost coded = { coded_list item.the_row.coded };

    ghost view = { λ a. a.items.items };
}

impl KernelGoals {
    pub fn new(alloc: Global) -> KernelGoals
        ensures { result ≡ [] }
    {
        KernelGoals {
            items: Vec::new(alloc),
        }
    }

    /// The list of these items, with no copy.
    pub fn from_vec(items: Vec<KernelGoal>) -> KernelGoals
        ensures { result ≡ items.items }
    {
        KernelGoals { items }
    }

    /// The items, with no copy.
    pub fn into_vec(self) -> Vec<KernelGoal>
        ensures { result.items ≡ self }
    {
        let KernelGoals { items } = self;
        items
    }

    pub fn as_slice(&self) -> &[KernelGoal]
        ensures { result.now ≡ self.now }
    {
        self.items.as_slice()
    }

    pub fn len(&self) -> usize
        ensures { result ≡ length self.now }
    {
        self.items.len()
    }

    /// Puts an item at the end. After want of memory the list is as it was.
    pub fn push(&mut self, item: KernelGoal) -> Result<(), Memory>
        ensures ok { OnOk result (self.new ≡ self.old ++ item ∷ []) }
        ensures err { OnErr result (self.new ≡ self.old) }
    {
        self.items.push(item)?;
        Ok(())
    }
}
