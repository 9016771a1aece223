use flow_equations::env::first_env;
use flow_equations::fact_list::FactList;
use flow_equations::facts::Facts;
use flow_equations::taken_order::taken_order;
use flow_equations::transfer::transfer;
use kernel_ir::kernel_clause::KernelClause;
use kernel_ir::kernel_goal::KernelGoal;
use kernel_ir::kernel_predicate::KernelPredicate;
use std::alloc::Global;
use std::test::Fail;

/// A goal that is taken.
#[derive(Drop)]
pub struct TakenGoal {
    /// Its number in the clause, from 0.
    number: usize,
    /// The facts before it.
    pub before: FactList,
}

impl TakenGoal {
    /// The goal in its clause.
    pub fn goal<'a>(&self, clause: &'a KernelClause) -> Option<&'a KernelGoal> {
        clause.goals.as_slice().get(self.number)
    }
}

/// The goals of a clause that are taken, in the order in which they are.
#[derive(Drop)]
pub struct TakenClause {
    pub goals: Vec<TakenGoal>,
    /// The facts at the clause's end, where it is come to.
    pub end: Option<FactList>,
}

/// Takes the goals of a clause of a predicate that is called with these facts, up to one that ends the clause.
pub fn take_clause(
    alloc: Global,
    predicate: &KernelPredicate,
    clause: &KernelClause,
    call: &FactList,
    facts: &Facts,
) -> Result<TakenClause, Fail> {
    let order = taken_order(alloc, clause, call)?;
    let mut env = first_env(alloc, call, predicate.barrier, clause.variables)?;
    let mut goals = Vec::new(alloc);
    for number in order.as_slice() {
        let Some(goal) = clause.goals.as_slice().get(*number) else {
            return Err("a goal that the clause does not have".into());
        };
        let after = transfer(alloc, goal, &env, facts)?;
        goals.push(TakenGoal {
            number: *number,
            before: env,
        })?;
        match after {
            Some(next) => env = next,
            None => return Ok(TakenClause { goals, end: None }),
        }
    }
    Ok(TakenClause {
        goals,
        end: Some(env),
    })
}
