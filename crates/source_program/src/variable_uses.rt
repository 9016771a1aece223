use crate::outline_clause::{OutlineClause, OutlineGoal};
use aq_term::memory::Memory;
use std::alloc::Global;

/// How a variable is used in the clause that is counted.
#[derive(Clone, Copy)]
struct VariableUse {
    /// The round of the clause, or an earlier one where the variable is not in this clause.
    round: u64,
    /// Whether it is an argument of the head.
    in_head: bool,
    /// In how many goals it stands, up to 2.
    goals: u8,
    /// The number of the last goal in which it stands.
    goal: usize,
    /// The number of the first chunk in which it stands.
    chunk: usize,
    /// Whether it needs a slot besides one for an argument of the head.
    kept: bool,
}

const UNUSED: VariableUse = VariableUse {
    round: 0,
    in_head: false,
    goals: 0,
    goal: 0,
    chunk: 0,
    kept: false,
};

/// The uses of the variables of one clause after the other.
#[derive(Drop)]
pub struct VariableUses {
    uses: Vec<VariableUse>,
    round: u64,
}

/// How many variables and slots a clause has.
#[derive(Clone, Copy, Debug)]
pub struct VariableCounts {
    pub variables: u64,
    pub slots: u64,
}

impl VariableUses {
    /// For variables below `variables`.
    pub fn new(alloc: Global, variables: usize) -> Result<VariableUses, Memory> {
        Ok(VariableUses {
            uses: vec![in alloc; UNUSED; variables]?,
            round: 0,
        })
    }

    /// Counts the variables and the slots of a clause. A clause that calls no predicate has no slots. Another one has a slot for each
    /// argument of its head; one for each variable that is an argument of a call, stands in two chunks, or stands in T of a goal
    /// `X = T`, X being an argument of the head that stands in no other goal; one for its depth and one for its barrier, where it
    /// uses them. A chunk is the goals up to a call, and with it.
    pub fn count(&mut self, clause: &OutlineClause) -> VariableCounts {
        self.round = self.round.saturating_add(1);
        let mut variables = self.note_head(clause);
        let mut kept = 0u64;
        let mut chunk = 0;
        for (number, goal) in clause.goals.as_slice().iter().enumerate() {
            for variable in clause.variables_of(goal) {
                let noted = self.note(*variable, number, chunk, goal.calls);
                variables = variables.saturating_add(noted.variables);
                kept = kept.saturating_add(noted.slots);
            }
            if goal.calls {
                chunk = number + 1;
            }
        }
        for goal in clause.goals.as_slice() {
            kept = kept.saturating_add(self.keep_unified(clause, goal));
        }
        VariableCounts {
            variables,
            slots: slots_of(clause, chunk, kept),
        }
    }

    /// Notes the arguments of the head, and gives their number.
    fn note_head(&mut self, clause: &OutlineClause) -> u64 {
        let round = self.round;
        for variable in clause.head.as_slice() {
            if let Some(used) = self.uses.get_mut(*variable as usize) {
                *used = VariableUse {
                    round,
                    in_head: true,
                    ..UNUSED
                };
            }
        }
        clause.head.len() as u64
    }

    /// Notes that a variable stands in a goal. The answer counts it where it is new, and its slot where it is now kept.
    fn note(&mut self, variable: u32, goal: usize, chunk: usize, calls: bool) -> VariableCounts {
        let round = self.round;
        let mut noted = VariableCounts {
            variables: 0,
            slots: 0,
        };
        let Some(used) = self.uses.get_mut(variable as usize) else {
            return noted;
        };
        if used.round != round {
            *used = VariableUse { round, ..UNUSED };
            noted.variables = 1;
        }
        if used.goals == 0 {
            used.goals = 1;
            used.goal = goal;
            used.chunk = chunk;
        } else if used.goal != goal {
            used.goals = 2;
            used.goal = goal;
        }
        if !used.kept && (calls || used.chunk != chunk) {
            used.kept = true;
            noted.slots = 1;
        }
        noted
    }

    /// The slots of the variables in T of a goal `X = T`, where X is an argument of the head that stands in no other goal.
    fn keep_unified(&mut self, clause: &OutlineClause, goal: &OutlineGoal) -> u64 {
        let Some(left) = goal.left else {
            return 0;
        };
        if !self.stands_once_in_head(left) {
            return 0;
        }
        let mut kept = 0u64;
        let mut of_term = false;
        for variable in clause.variables_of(goal) {
            if of_term {
                kept = kept.saturating_add(self.keep(*variable));
            }
            of_term = true;
        }
        kept
    }

    fn stands_once_in_head(&self, variable: u32) -> bool {
        match self.uses.get(variable as usize) {
            Some(used) => used.round == self.round && used.in_head && used.goals == 1,
            None => false,
        }
    }

    /// Keeps a variable, and gives 1 where it was not kept.
    fn keep(&mut self, variable: u32) -> u64 {
        match self.uses.get_mut(variable as usize) {
            Some(used) if !used.kept => {
                used.kept = true;
                1
            }
            _ => 0,
        }
    }
}

/// The slots of a clause whose last call ends before this chunk, with this number of variables that are kept.
fn slots_of(clause: &OutlineClause, chunk: usize, kept: u64) -> u64 {
    if chunk == 0 {
        return 0;
    }
    let head = clause.head.len() as u64;
    head.saturating_add(kept)
        .saturating_add(u64::from(clause.uses_depth))
        .saturating_add(u64::from(clause.uses_barrier))
}
