use crate::kernel_outline::KernelOutline;
use crate::outline_clause::OutlineClause;
use crate::outline_walk::OutlineWalk;
use crate::variable_uses::VariableUses;
use aq_term::memory::Memory;
use std::alloc::Global;

/// The most arguments of an auxiliary predicate that are variables.
pub const MOST_BRANCH: usize = 62;

/// What the limits count over the kernel clauses of a source clause.
#[derive(Clone, Copy, Debug)]
pub struct OutlineCounts {
    /// The greatest number of variables that are arguments of an auxiliary predicate. Where it is greater than 62, the other
    /// numbers say nothing.
    pub branch: usize,
    /// The greatest number of variables of a kernel clause.
    pub variables: u64,
    /// The greatest number of slots.
    pub slots: u64,
    /// The greatest number n of nodes that hold a variable.
    pub nodes: u64,
    /// The sum of (n + 8)² over all kernel clauses.
    pub total: u64,
}

/// The counts of an outline.
pub fn counts_of(alloc: Global, outline: &KernelOutline) -> Result<OutlineCounts, Memory> {
    let mut walk = OutlineWalk::new(alloc, outline)?;
    let mut uses = VariableUses::new(alloc, outline.variables)?;
    let mut counts = OutlineCounts {
        branch: 0,
        variables: 0,
        slots: 0,
        nodes: 0,
        total: 0,
    };
    for at in 0..outline.items.len() {
        if counts.branch > MOST_BRANCH {
            return Ok(counts);
        }
        if let Some(clause) = walk.clause_at(at)? {
            counts.count(&mut uses, &clause);
            counts.branch = walk.branch();
        }
    }
    Ok(counts)
}

impl OutlineCounts {
    /// Counts a clause too, its branch left out.
    fn count(&mut self, uses: &mut VariableUses, clause: &OutlineClause) {
        let counted = uses.count(clause);
        let weight = clause.nodes.saturating_add(8);
        self.variables = self.variables.max(counted.variables);
        self.slots = self.slots.max(counted.slots);
        self.nodes = self.nodes.max(clause.nodes);
        self.total = self.total.saturating_add(weight.saturating_mul(weight));
    }
}
