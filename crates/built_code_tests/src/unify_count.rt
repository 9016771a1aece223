use crate::occurrences::{largest_ground_compounds, times};
use crate::taken_clause::TakenClause;
use aq_term::builtin::Builtin;
use aq_term::term::Term;
use flow_equations::fact_list::FactList;
use flow_equations::occurrences::{goal_variables, term_variables};
use kernel_ir::kernel_clause::KernelClause;
use kernel_ir::kernel_goal::KernelGoal;
use std::alloc::Global;
use std::test::Fail;
use type_lattice::fact::Fact;

/// At most so many `unify` come of a clause.
pub fn most_unify(alloc: Global, clause: &KernelClause, taken: &TakenClause) -> Result<u64, Fail> {
    let mut count: u64 = 0;
    for step in &taken.goals {
        if let Some(goal) = step.goal(clause) {
            count = count.saturating_add(of_goal(alloc, goal, &step.before)?);
        }
    }
    Ok(count)
}

fn of_goal(alloc: Global, goal: &KernelGoal, before: &FactList) -> Result<u64, Fail> {
    match goal {
        KernelGoal::Unify(left, Term::Var(right)) => Ok(of_variables(*left, *right, before)),
        KernelGoal::Unify(left, term) if before.fact(*left) != Fact::Out => {
            let variables = goal_variables(alloc, goal)?;
            of_term(alloc, term, &variables, before)
        }
        KernelGoal::Builtin(Builtin::Is, arguments) => match arguments.as_slice() {
            [Term::Var(value), _] if before.fact(*value) == Fact::Out => Ok(0),
            _ => Ok(1),
        },
        _ => Ok(0),
    }
}

/// `X = Y`: one where neither is out. A variable that is out and stands on both sides is anything before.
fn of_variables(left: u32, right: u32, before: &FactList) -> u64 {
    if left == right || (before.fact(left) != Fact::Out && before.fact(right) != Fact::Out) {
        return 1;
    }
    0
}

/// `X = T`, X not out: one for each largest ground compound of T, and one for each place in it of a variable that is not out or
/// stands in the goal twice.
fn of_term(alloc: Global, term: &Term, goal: &[u32], before: &FactList) -> Result<u64, Fail> {
    let mut count = largest_ground_compounds(alloc, term)?;
    let variables = term_variables(alloc, term)?;
    for variable in &variables {
        if before.fact(*variable) != Fact::Out || times(goal, *variable) > 1 {
            count = count.saturating_add(1);
        }
    }
    Ok(count)
}
