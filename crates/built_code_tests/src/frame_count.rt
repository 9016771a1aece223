use crate::occurrences::times;
use aq_term::term::Term;
use flow_equations::deferred::LoneVariables;
use flow_equations::fact_list::FactList;
use flow_equations::facts::Facts;
use flow_equations::occurrences::{note_goal, variables_of_all};
use flow_equations::predicate_facts::PredicateFacts;
use kernel_ir::kernel_clause::KernelClause;
use kernel_ir::kernel_goal::KernelGoal;
use std::alloc::Global;
use std::test::Fail;
use type_lattice::fact::Fact;

/// At most so many `allocate` come of a clause of a predicate that is called with these facts.
pub fn most_frames(
    alloc: Global,
    clause: &KernelClause,
    call: &FactList,
    facts: &Facts,
) -> Result<u64, Fail> {
    let goals = clause.goals.as_slice();
    let lone = LoneVariables::of(alloc, clause)?;
    let last = last_goal(goals, &lone, call);
    let needs_one = has_call_before(goals, last)
        || needs_frame(alloc, goals, &lone, last, call, facts)?;
    Ok(catches(goals).saturating_add(u64::from(needs_one)))
}

fn catches(goals: &[KernelGoal]) -> u64 {
    goals
        .iter()
        .filter(|goal| matches!(goal, KernelGoal::Catch(_, _, _, _)))
        .count() as u64
}

/// The number of the last goal that is not deferred, or of the first goal where there is none.
fn last_goal(goals: &[KernelGoal], lone: &LoneVariables, call: &FactList) -> usize {
    let mut last = 0;
    for (number, goal) in goals.iter().enumerate() {
        if !lone.defer(goal, call) {
            last = number;
        }
    }
    last
}

/// Whether a call stands before this goal.
fn has_call_before(goals: &[KernelGoal], last: usize) -> bool {
    goals
        .iter()
        .take(last)
        .any(|goal| matches!(goal, KernelGoal::Call(_, _)))
}

/// Whether the last goal is a call that never succeeds, or one that cannot hand on each of its variables that is wanted later.
fn needs_frame(
    alloc: Global,
    goals: &[KernelGoal],
    lone: &LoneVariables,
    last: usize,
    call: &FactList,
    facts: &Facts,
) -> Result<bool, Fail> {
    let Some(KernelGoal::Call(name, arguments)) = goals.get(last) else {
        return Ok(false);
    };
    let Some(callee) = facts.find(name) else {
        return Err("a call of what has no facts".into());
    };
    let deferred = deferred_variables(alloc, goals, lone, call)?;
    let variables = variables_of_all(alloc, arguments.as_slice())?;
    for variable in &variables {
        let is_result = call.as_slice().get(*variable as usize) == Some(&Fact::Out);
        let later = times(&deferred, *variable);
        let is_handed_on = times(&variables, *variable) == 1
            && is_out_at(arguments.as_slice(), *variable, callee)
            && later == usize::from(!is_result);
        if (later > 0 || is_result) && !is_handed_on {
            return Ok(true);
        }
    }
    Ok(callee.never_succeeds())
}

/// The variables of all deferred goals, each as often as it stands there.
fn deferred_variables(
    alloc: Global,
    goals: &[KernelGoal],
    lone: &LoneVariables,
    call: &FactList,
) -> Result<Vec<u32>, Fail> {
    let mut variables = Vec::new(alloc);
    for goal in goals {
        if lone.defer(goal, call) {
            note_goal(goal, &mut variables)?;
        }
    }
    Ok(variables)
}

/// Whether a variable stands at an argument that is out at all calls.
fn is_out_at(arguments: &[Term], variable: u32, callee: &PredicateFacts) -> bool {
    for (argument, fact) in arguments.iter().zip(callee.call.as_slice()) {
        if matches!(argument, Term::Var(other) if *other == variable) && *fact == Fact::Out {
            return true;
        }
    }
    false
}
