ghost use Rattle.std.specs.Prelude.{◌≡◌, ◌<◌, All, IfOk, OnOk, length};

use crate::deferred::LoneVariables;
use crate::fact_list::FactList;
use aq_term::memory::Memory;
use kernel_ir::kernel_clause::KernelClause;
use kernel_ir::kernel_goal::KernelGoal;
use std::alloc::Global;

/// The order in which the goals of a clause are taken under these facts of the call: first those that are not deferred, in their
/// order, and then those that are. A goal is given by its number, from 0.
pub fn taken_order(
    alloc: Global,
    clause: &KernelClause,
    call: &FactList,
) -> Result<Vec<usize>, Memory> {
    let lone = LoneVariables::of(alloc, clause)?;
    let goals = clause.goals.as_slice();
    let mut order = Vec::with_capacity(alloc, goals.len())?;
    put_first(goals, call, &lone, &mut order)?;
    put_deferred(goals, call, &lone, &mut order)?;
    Ok(order)
}

fn put_first(
    goals: &[KernelGoal],
    call: &FactList,
    lone: &LoneVariables,
    order: &mut Vec<usize>,
) -> Result<(), Memory> {
    for (number, goal) in goals.iter().enumerate() {
        if !lone.defer(goal, call) {
            order.push(number)?;
        }
    }
    Ok(())
}

fn put_deferred(
    goals: &[KernelGoal],
    call: &FactList,
    lone: &LoneVariables,
    order: &mut Vec<usize>,
) -> Result<(), Memory> {
    for (number, goal) in goals.iter().enumerate() {
        if lone.defer(goal, call) {
            order.push(number)?;
        }
    }
    Ok(())
}
