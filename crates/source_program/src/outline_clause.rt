use aq_term::memory::Memory;
use std::alloc::Global;

/// A goal of a clause of an outline, with what the limits count of it.
#[derive(Clone, Copy, Debug, Drop)]
pub struct OutlineGoal {
    /// The place of its item in the outline.
    pub item: usize,
    /// Where its variables begin in the clause's row. Those of a call of an auxiliary predicate are its arguments, in order of
    /// first occurrence inside, the ball and the barrier left out.
    pub first: usize,
    /// Where they end.
    pub last: usize,
    /// V of a goal `V = T`, which is then the first variable.
    pub left: Option<u32>,
    /// Whether it calls a predicate.
    pub calls: bool,
}

/// A clause of an outline, as a kernel clause has it, with what the limits count of it.
#[derive(Debug, Drop)]
pub struct OutlineClause {
    /// The place of the auxiliary predicate in the outline whose clause it is, or none for the clause that is written in the program.
    pub predicate: Option<usize>,
    /// Whether its cuts go back to where its predicate was entered.
    pub owns_cuts: bool,
    /// The variables that are the arguments of the head, a barrier left out.
    pub head: Vec<u32>,
    pub goals: Vec<OutlineGoal>,
    /// The variables of the goals, in their order.
    pub variables: Vec<u32>,
    /// How many nodes of the goals' arguments hold a variable.
    pub nodes: u64,
    /// Whether it cuts to the depth at which its predicate was entered, or gives that depth to a call.
    pub uses_depth: bool,
    /// Whether it cuts to its barrier, or hands it on.
    pub uses_barrier: bool,
}

impl OutlineClause {
    /// A clause with this head and without goals.
    pub fn new(
        alloc: Global,
        predicate: Option<usize>,
        owns_cuts: bool,
        head: &[u32],
    ) -> Result<OutlineClause, Memory> {
        Ok(OutlineClause {
            predicate,
            owns_cuts,
            head: Vec::from_slice(alloc, head)?,
            goals: Vec::new(alloc),
            variables: Vec::new(alloc),
            nodes: 0,
            uses_depth: false,
            uses_barrier: false,
        })
    }

    /// Puts the goal that is the item at this place of the outline at the end, with these variables.
    pub fn add(
        &mut self,
        item: usize,
        variables: &[u32],
        left: Option<u32>,
        calls: bool,
        nodes: u64,
    ) -> Result<(), Memory> {
        let first = self.variables.len();
        self.variables.extend_from_slice(variables)?;
        self.goals.push(OutlineGoal {
            item,
            first,
            last: self.variables.len(),
            left,
            calls,
        })?;
        self.nodes = self.nodes.saturating_add(nodes);
        Ok(())
    }

    /// Notes a cut of the clause that is written in the program.
    pub fn use_cut(&mut self) {
        if self.owns_cuts {
            self.uses_depth = true;
        } else {
            self.uses_barrier = true;
        }
    }

    /// The variables of a goal of this clause.
    pub fn variables_of(&self, goal: &OutlineGoal) -> &[u32] {
        if goal.first <= goal.last && goal.last <= self.variables.len() {
            &self.variables[goal.first..goal.last]
        } else {
            &[]
        }
    }
}
