use aq_term::memory::Memory;
use aq_term::term::Term;
use flow_equations::facts::Facts;
use flow_equations::occurrences::{note_goal, variables_of_all};
use flow_equations::predicate_facts::PredicateFacts;
use kernel_ir::kernel_goal::KernelGoal;
use std::alloc::Global;
use type_lattice::fact::Fact;

/// How the last goal before the deferred ones is done.
#[derive(Clone, Copy, Debug, PartialEq, Eq)]
pub enum Leaving {
    /// As any other goal: the clause goes on behind it.
    Returns,
    /// It is a call that gives the procedure up: nothing is left to do behind it.
    Executes,
}

/// Whether the last of the goals before the deferred ones can give the procedure up. It can where it is a call that may succeed, and
/// each of its variables that a deferred goal has is passed on: it is in the call once, at a result of the callee, and in the
/// deferred goals once, so that the callee fills its hole.
pub fn leaving_of(
    alloc: Global,
    goals: &[KernelGoal],
    deferred: usize,
    variables: u32,
    facts: &Facts,
) -> Result<Leaving, Memory> {
    let [.., KernelGoal::Call(name, arguments)] = goals.get(..deferred).unwrap_or(&[]) else {
        return Ok(Leaving::Returns);
    };
    let Some(callee) = facts.find(name) else {
        return Ok(Leaving::Returns);
    };
    if callee.never_succeeds() {
        return Ok(Leaving::Returns);
    }
    let wanted = deferred_counts(alloc, goals.get(deferred..).unwrap_or(&[]), variables)?;
    let given = counts(
        alloc,
        &variables_of_all(alloc, arguments.as_slice())?,
        variables,
    )?;
    Ok(if all_passed_on(
        arguments.as_slice(),
        callee,
        wanted.as_slice(),
        given.as_slice(),
    ) {
        Leaving::Executes
    } else {
        Leaving::Returns
    })
}

/// How often each variable is in these goals, up to 2.
fn deferred_counts(alloc: Global, goals: &[KernelGoal], variables: u32) -> Result<Vec<u8>, Memory> {
    let mut occurrences = Vec::new(alloc);
    for goal in goals {
        note_goal(goal, &mut occurrences)?;
    }
    counts(alloc, &occurrences, variables)
}

/// How often each variable is among these, up to 2.
pub fn counts(alloc: Global, occurrences: &Vec<u32>, variables: u32) -> Result<Vec<u8>, Memory> {
    let mut counts = vec![in alloc; 0u8; variables as usize]?;
    for variable in occurrences.as_slice() {
        if let Some(count) = counts.get_mut(*variable as usize) {
            *count = (*count).saturating_add(1).min(2);
        }
    }
    Ok(counts)
}

/// Whether each argument that a deferred goal has is passed on.
fn all_passed_on(arguments: &[Term], callee: &PredicateFacts, wanted: &[u8], given: &[u8]) -> bool {
    for (place, argument) in arguments.iter().enumerate() {
        if !is_passed_on(argument, callee.call.as_slice().get(place), wanted, given) {
            return false;
        }
    }
    true
}

/// Whether an argument of this fact at the calls is passed on, or no deferred goal has it.
fn is_passed_on(argument: &Term, call: Option<&Fact>, wanted: &[u8], given: &[u8]) -> bool {
    let Term::Var(variable) = argument else {
        return true;
    };
    match count_of(wanted, *variable) {
        0 => true,
        1 => matches!(call, Some(Fact::Out)) && count_of(given, *variable) == 1,
        _ => false,
    }
}

/// How often a variable is counted.
fn count_of(counts: &[u8], variable: u32) -> u8 {
    counts.get(variable as usize).copied().unwrap_or(0)
}
