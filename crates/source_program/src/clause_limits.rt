ghost use Rattle.std.specs.Prelude.{◌≡◌, ◌+◌, ◌≤◌, None, IfOk};
ghost use Rattle.source_program.specs.Limits.{Counts, kernel_limit, limit_of};

use crate::outline_builder::outline_of;
use crate::outline_counts::{MOST_BRANCH, OutlineCounts, counts_of};
use crate::source_clause::SourceClause;
use aq_base::refusal::LimitKind;
use aq_term::memory::Memory;
use std::alloc::Global;

/// The most arguments of a head and of a call.
const MOST_ARGUMENTS: usize = 63;
/// The most variables of a kernel clause.
const MOST_VARIABLES: u64 = 400;
/// The most slots of a kernel clause.
const MOST_SLOTS: u64 = 256;
/// The most nodes of a kernel clause's arguments that hold a variable.
const MOST_NODES: u64 = 512;
/// The greatest sum of (n + 8)² over the kernel clauses of a program, n being a clause's nodes that hold a variable.
const GREATEST_TOTAL: u64 = 16_777_216;

/// The limits of the clauses of a program, in the order of the text.
#[derive(Drop)]
pub struct ClauseLimits {
    /// The sum of (n + 8)² over the kernel clauses so far.
    total: u64,
}

impl ClauseLimits {
    /// Before the first clause.
    pub fn new() -> ClauseLimits
        ensures { result.total ≡ 0 }
    {
        ClauseLimits { total: 0 }
    }

    /// The first limit that the next clause passes, if it passes one.
    pub fn passed_by(
        &mut self,
        alloc: Global,
        clause: &SourceClause,
    ) -> Result<Option<LimitKind>, Memory>
        requires { self.old.total ≤ 16777216 }
        ensures counts { IfOk result (λ passed. (counts : Counts) × (counts.arguments ≡ clause.now.most_arguments) × (passed ≡ limit_of counts self.old.total) × (passed ≡ None → self.new.total ≡ self.old.total + counts.kernel.total)) }
        ensures low { IfOk result (λ passed. passed ≡ None → self.new.total ≤ 16777216) }
    {
        if clause.most_arguments > MOST_ARGUMENTS {
            return Ok(Some(LimitKind::Arity));
        }
        let outline = outline_of(alloc, clause)?;
        let counts = counts_of(alloc, &outline)?;
        self.total = self.total.saturating_add(counts.total);
        Ok(passed(&counts, self.total))
    }
}

/// The first limit that is passed, the total given.
fn passed(counts: &OutlineCounts, total: u64) -> Option<LimitKind>
    ensures { result ≡ kernel_limit counts.now total }
{
    if counts.branch > MOST_BRANCH {
        Some(LimitKind::Branch)
    } else if counts.variables > MOST_VARIABLES {
        Some(LimitKind::Variables)
    } else if counts.slots > MOST_SLOTS {
        Some(LimitKind::Slots)
    } else if counts.nodes > MOST_NODES {
        Some(LimitKind::Nodes)
    } else if total > GREATEST_TOTAL {
        Some(LimitKind::Total)
    } else {
        None
    }
}
