use crate::occurrences::{compounds_with, each_once, times};
use crate::taken_clause::TakenClause;
use aq_term::builtin::Builtin;
use aq_term::term::Term;
use flow_equations::fact_list::FactList;
use flow_equations::facts::Facts;
use flow_equations::occurrences::{goal_variables, term_variables, variables_of_all};
use kernel_ir::kernel_clause::KernelClause;
use kernel_ir::kernel_goal::KernelGoal;
use std::alloc::Global;
use std::test::Fail;
use type_lattice::fact::{Fact, below};

/// At most so many `fresh` and `push_new` come of a clause of a predicate that is called with these facts.
pub fn most_cells(
    alloc: Global,
    clause: &KernelClause,
    taken: &TakenClause,
    call: &FactList,
    facts: &Facts,
) -> Result<u64, Fail> {
    let mut count = of_end(taken, call);
    for step in &taken.goals {
        if let Some(goal) = step.goal(clause) {
            let first = of_goal(alloc, goal, &step.before, facts)?;
            let then = of_unification(alloc, goal, &step.before)?;
            count = count.saturating_add(first).saturating_add(then);
        }
    }
    Ok(count)
}

/// One for each variable of the head that is out at the call and at the end.
fn of_end(taken: &TakenClause, call: &FactList) -> u64 {
    let Some(end) = &taken.end else {
        return 0;
    };
    let mut count: u64 = 0;
    for (at_call, at_end) in call.as_slice().iter().zip(end.as_slice()) {
        if *at_call == Fact::Out && *at_end == Fact::Out {
            count = count.saturating_add(1);
        }
    }
    count
}

/// One for each variable that is out before the goal and must stand in a cell for it.
fn of_goal(
    alloc: Global,
    goal: &KernelGoal,
    before: &FactList,
    facts: &Facts,
) -> Result<u64, Fail> {
    let variables = goal_variables(alloc, goal)?;
    let mut count: u64 = 0;
    for variable in &each_once(alloc, &variables)? {
        let wants = times(&variables, *variable) > 1 || wants_cell(alloc, goal, *variable, facts)?;
        if wants && before.fact(*variable) == Fact::Out {
            count = count.saturating_add(1);
        }
    }
    Ok(count)
}

/// Whether a variable that is out must stand in a cell, though it stands in the goal once: it is in a built-in other than as the X of
/// `X is E`, in a catch or a throw, or an argument of a call that is not out at all calls.
fn wants_cell(
    alloc: Global,
    goal: &KernelGoal,
    variable: u32,
    facts: &Facts,
) -> Result<bool, Fail> {
    match goal {
        KernelGoal::Builtin(Builtin::Is, arguments) => match arguments.as_slice() {
            [_, expression @ ..] => Ok(variables_of_all(alloc, expression)?.contains(&variable)),
            _ => Ok(false),
        },
        KernelGoal::Builtin(_, _) | KernelGoal::Catch(_, _, _, _) | KernelGoal::Throw(_) => {
            Ok(true)
        }
        KernelGoal::Call(name, arguments) => match facts.find(name) {
            Some(callee) => Ok(is_given(arguments.as_slice(), variable, &callee.call)),
            None => Ok(false),
        },
        _ => Ok(false),
    }
}

/// Whether a variable stands at an argument that is not out at all calls.
fn is_given(arguments: &[Term], variable: u32, call: &FactList) -> bool {
    for (argument, fact) in arguments.iter().zip(call.as_slice()) {
        if matches!(argument, Term::Var(other) if *other == variable) && *fact != Fact::Out {
            return true;
        }
    }
    false
}

/// What a unification with a variable or a compound adds.
fn of_unification(alloc: Global, goal: &KernelGoal, before: &FactList) -> Result<u64, Fail> {
    match goal {
        KernelGoal::Unify(left, Term::Var(right)) => {
            let are_out = before.fact(*left) == Fact::Out && before.fact(*right) == Fact::Out;
            Ok(u64::from(are_out && left != right))
        }
        KernelGoal::Unify(left, term) => of_term(alloc, *left, term, before),
        _ => Ok(0),
    }
}

/// `X = T`: for each variable of T that is out, as often as the code makes it.
fn of_term(alloc: Global, left: u32, term: &Term, before: &FactList) -> Result<u64, Fail> {
    let variables = term_variables(alloc, term)?;
    let fact = if before.fact(left) == Fact::Out && variables.contains(&left) {
        Fact::Any
    } else {
        before.fact(left)
    };
    let mut count: u64 = 0;
    for variable in &each_once(alloc, &variables)? {
        if *variable != left && before.fact(*variable) == Fact::Out {
            let compounds = compounds_with(alloc, term, *variable)?;
            count = count.saturating_add(times_made(fact, compounds));
        }
    }
    Ok(count)
}

/// How often the code makes a variable that stands in so many compounds of T, by the fact of X.
fn times_made(fact: Fact, compounds: u64) -> u64 {
    if fact == Fact::Out {
        return 1;
    }
    if below(fact, Fact::Ground) {
        return 0;
    }
    if below(fact, Fact::Nonvar) {
        return compounds.saturating_sub(1);
    }
    compounds
}
