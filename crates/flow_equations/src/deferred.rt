use crate::fact_list::FactList;
use crate::occurrences::note_goal;
use aq_term::memory::Memory;
use kernel_ir::kernel_clause::KernelClause;
use kernel_ir::kernel_goal::KernelGoal;
use std::alloc::Global;
use type_lattice::fact::Fact;

/// Which variables of a clause occur once in its goals.
#[derive(Debug, Drop)]
pub struct LoneVariables {
    /// How often each variable occurs, up to 2.
    counts: Vec<u8>,
}

impl LoneVariables {
    /// Those of a clause.
    pub fn of(alloc: Global, clause: &KernelClause) -> Result<LoneVariables, Memory> {
        let mut occurrences = Vec::new(alloc);
        for goal in clause.goals.as_slice() {
            note_goal(goal, &mut occurrences)?;
        }
        let mut counts = vec![in alloc; 0u8; clause.variables as usize]?;
        for variable in occurrences.as_slice() {
            if let Some(count) = counts.get_mut(*variable as usize) {
                *count = (*count).saturating_add(1).min(2);
            }
        }
        Ok(LoneVariables { counts })
    }

    /// Whether a variable occurs once.
    fn has(&self, variable: u32) -> bool {
        matches!(self.counts.get(variable as usize), Some(1))
    }

    /// Whether a goal of the clause is deferred, by the facts of the call: it is `X = T`, X is an argument of the head that is out, and
    /// X occurs nowhere else in the goals, T among them.
    pub fn defer(&self, goal: &KernelGoal, call: &FactList) -> bool {
        match goal {
            KernelGoal::Unify(variable, _) => {
                self.has(*variable)
                    && matches!(call.as_slice().get(*variable as usize), Some(Fact::Out))
            }
            _ => false,
        }
    }
}
