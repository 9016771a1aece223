ghost use Rattle.std.specs.Prelude.{◌≡◌, ◌++◌, ◌∷◌, [], OnOk, OnErr, length};

use crate::kernel_clause::KernelClause;
use aq_term::memory::Memory;
use std::alloc::Global;
use std::marker::Model;

/// The clauses of a kernel predicate, in order. Contracts see the list of them.
#[derive(Debug, Drop)]
pub struct KernelClauses {
    items: Vec<KernelClause>,
}

impl Model for KernelClauses {
    ghost use Rattle.std.specs.Prelude.{List};
    ghost use Rattle.kernel_ir.specs.declared.kernel_clause.KernelClause.{KernelClause};

    ghost Value = { List KernelClause };

    ghost use Rattle.kernel_ir.specs.contracts.kernel_clause.KernelClause as item;
    ghost use Rattle.std.specs.Coded.{coded_list};

    ghost coded = { coded_list item.the_row.coded };

    ghost view = { λ a. a.items.items };
}

impl KernelClauses {
    pub fn new(alloc: Global) -> KernelClauses
        ensures { result ≡ [] }
    {
        KernelClauses {
            items: Vec::new(alloc),
        }
    }

    /// The list of these items, with no copy.
    pub fn from_vec(items: Vec<KernelClause>) -> KernelClauses
        ensures { result ≡ items.items }
    {
        KernelClauses { items }
    }

    /// The items, with no copy.
    pub fn into_vec(self) -> Vec<KernelClause>
        ensures { result.items ≡ self }
    {
        let KernelClauses { items } = self;
        items
    }

    pub fn as_slice(&self) -> &[KernelClause]
        ensures { result.now ≡ self.now }
    {
        self.items.as_slice()
    }

    pub fn len(&self) -> usize
        ensures { result ≡ length self.now }
    {
        self.items.len()
    }

    /// Puts an item at the end. After want of memory the list is as it was.
    pub fn push(&mut self, item: KernelClause) -> Result<(), Memory>
        ensures ok { OnOk result (self.new ≡ self.old ++ item ∷ []) }
        ensures err { OnErr result (self.new ≡ self.old) }
    {
        self.items.push(item)?;
        Ok(())
    }
}
