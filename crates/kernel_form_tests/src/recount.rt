use crate::goal_parts::GoalParts;
use aq_term::memory::Memory;
use aq_term::proc_name::ProcName;
use aq_term::term::Term;
use kernel_ir::kernel::Kernel;
use kernel_ir::kernel_clause::KernelClause;
use kernel_ir::kernel_goal::KernelGoal;
use kernel_ir::kernel_predicate::KernelPredicate;
use std::alloc::Global;

/// What the limits count, found from kernel clauses alone.
#[derive(Clone, Copy, Debug, PartialEq, Eq)]
pub struct Recount {
    /// The greatest number of arguments of an auxiliary predicate, the ball and the barrier left out.
    pub branch: u64,
    pub variables: u64,
    pub slots: u64,
    pub nodes: u64,
    pub total: u64,
}

/// The counts of the kernel clauses that come from this clause of the text.
pub fn recount_of(alloc: Global, kernel: &Kernel, source: u64) -> Result<Recount, Memory> {
    let handlers = handlers_of(alloc, kernel)?;
    let mut counts = Recount {
        branch: 0,
        variables: 0,
        slots: 0,
        nodes: 0,
        total: 0,
    };
    for predicate in kernel.predicates.as_slice() {
        for clause in predicate.clauses.as_slice() {
            if clause.source == source {
                counts.count_width(predicate, &handlers);
                counts.count(alloc, predicate, clause)?;
            }
        }
    }
    Ok(counts)
}

/// The predicates whose first argument is a ball.
fn handlers_of(alloc: Global, kernel: &Kernel) -> Result<Vec<ProcName>, Memory> {
    let mut handlers = Vec::new(alloc);
    for predicate in kernel.predicates.as_slice() {
        for clause in predicate.clauses.as_slice() {
            for goal in clause.goals.as_slice() {
                if let KernelGoal::Catch(_, _, handler, _) = goal {
                    handlers.push(*handler)?;
                }
            }
        }
    }
    Ok(handlers)
}

/// The number of arguments of the head, a barrier left out.
fn plain_width(predicate: &KernelPredicate) -> u32 {
    u32::from(predicate.name.width).saturating_sub(u32::from(predicate.barrier))
}

fn calls(goal: &KernelGoal) -> bool {
    matches!(
        goal,
        KernelGoal::Call(_, _) | KernelGoal::Undefined(_, _) | KernelGoal::Catch(_, _, _, _)
    )
}

impl Recount {
    fn count_width(&mut self, predicate: &KernelPredicate, handlers: &Vec<ProcName>) {
        if predicate.name.part > 0 {
            let ball = handlers.as_slice().contains(&predicate.name);
            let width = plain_width(predicate).saturating_sub(u32::from(ball));
            self.branch = self.branch.max(u64::from(width));
        }
    }

    fn count(
        &mut self,
        alloc: Global,
        predicate: &KernelPredicate,
        clause: &KernelClause,
    ) -> Result<(), Memory> {
        let mut goals = Vec::new(alloc);
        let mut nodes = 0u64;
        for goal in clause.goals.as_slice() {
            let parts = GoalParts::of(alloc, goal)?;
            nodes = nodes.saturating_add(parts.nodes);
            goals.push(parts)?;
        }
        let variables = clause
            .variables
            .saturating_sub(u32::from(predicate.barrier));
        let slots = slots(predicate, clause, goals.as_slice());
        let weight = nodes.saturating_add(8);
        self.variables = self.variables.max(u64::from(variables));
        self.slots = self.slots.max(slots);
        self.nodes = self.nodes.max(nodes);
        self.total = self.total.saturating_add(weight.saturating_mul(weight));
        Ok(())
    }
}

/// The slots of a clause, whose goals have these parts.
fn slots(predicate: &KernelPredicate, clause: &KernelClause, goals: &[GoalParts]) -> u64 {
    if !clause.goals.as_slice().iter().any(calls) {
        return 0;
    }
    let width = plain_width(predicate);
    let barrier = if predicate.barrier { Some(width) } else { None };
    let mut slots = u64::from(width);
    for variable in 0..clause.variables {
        if barrier != Some(variable) && is_kept(variable, width, clause, goals) {
            slots = slots.saturating_add(1);
        }
    }
    if clause.goals.as_slice().iter().any(uses_depth) {
        slots = slots.saturating_add(1);
    }
    if goals_use_barrier(clause, barrier) {
        slots = slots.saturating_add(1);
    }
    slots
}

/// Whether a variable is an argument of a call, stands in two chunks, or in T of a goal `X = T` where the argument X of the head is in
/// no other goal.
fn is_kept(variable: u32, width: u32, clause: &KernelClause, goals: &[GoalParts]) -> bool {
    let mut chunk = 0u32;
    let mut met = None;
    for (goal, parts) in clause.goals.as_slice().iter().zip(goals) {
        if parts.has(variable) {
            if calls(goal) || is_unified_alone(variable, width, goal, parts, goals) {
                return true;
            }
            if met.is_some() && met != Some(chunk) {
                return true;
            }
            met = Some(chunk);
        }
        if calls(goal) {
            chunk = chunk.saturating_add(1);
        }
    }
    false
}

fn is_unified_alone(
    variable: u32,
    width: u32,
    goal: &KernelGoal,
    parts: &GoalParts,
    goals: &[GoalParts],
) -> bool {
    let KernelGoal::Unify(left, _) = goal else {
        return false;
    };
    let others = parts.variables.as_slice();
    let in_term = match others {
        [] => false,
        [_, rest @ ..] => rest.contains(&variable),
    };
    let mut with_left = 0u32;
    for other in goals {
        if other.has(*left) {
            with_left = with_left.saturating_add(1);
        }
    }
    in_term && *left < width && with_left == 1
}

/// Whether a goal cuts to the depth at which its predicate was entered, or gives it to a call.
fn uses_depth(goal: &KernelGoal) -> bool {
    match goal {
        KernelGoal::Cut => true,
        KernelGoal::Call(name, arguments) => arguments.len() < name.width as usize,
        _ => false,
    }
}

fn goals_use_barrier(clause: &KernelClause, barrier: Option<u32>) -> bool {
    let Some(own) = barrier else {
        return false;
    };
    for goal in clause.goals.as_slice() {
        let uses = match goal {
            KernelGoal::CutTo(_) => true,
            KernelGoal::Call(_, arguments) => match arguments.as_slice() {
                [.., Term::Var(last)] => *last == own,
                _ => false,
            },
            _ => false,
        };
        if uses {
            return true;
        }
    }
    false
}
