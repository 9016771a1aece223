ghost use Rattle.std.specs.Prelude.{◌≡◌, ◌==◌, ◌+◌, ◌<◌, OnOk, OnErr, drop, length, map};
ghost use Rattle.std.specs.List.{list_any};
ghost use Rattle.aq_term.specs.PlainOf.{plain};
ghost use Rattle.flow_equations.specs.Prepared.{prepared, repeated_seen, stored};

use crate::env::{see, see_all};
use crate::fact_list::FactList;
use crate::occurrences::{goal_variables, variables_of_all};
use aq_term::builtin::Builtin;
use aq_term::memory::Memory;
use aq_term::term::Term;
use kernel_ir::kernel_goal::KernelGoal;
use std::alloc::Global;

/// Makes the facts ready for a goal: what must stand in a cell before it is taken may be anything. In a call and in `X = T` that
/// is each variable that is out and occurs twice; in a `Catch` and a built-in each that is out, but for the X of `X is E` where it
/// is not in E. After want of memory the facts are as they were.
pub fn prepare(alloc: Global, goal: &KernelGoal, env: &mut FactList) -> Result<(), Memory>
    ensures facts { OnOk result (env.new ≡ prepared env.old goal.now) }
    ensures len { length env.new ≡ length env.old }
    ensures err { OnErr result (env.new ≡ env.old) }
{
    match goal {
        KernelGoal::Unify(_, _) | KernelGoal::Call(_, _) => {
            see_repeated(env, goal_variables(alloc, goal)?.as_slice());
        }
        KernelGoal::Catch(_, _, _, _) => see_all(env, goal_variables(alloc, goal)?.as_slice()),
        KernelGoal::Builtin(builtin, arguments) => {
            let stored = stored_arguments(*builtin, arguments.as_slice());
            see_all(env, variables_of_all(alloc, stored)?.as_slice());
        }
        KernelGoal::Undefined(_, _)
        | KernelGoal::Cut
        | KernelGoal::CutTo(_)
        | KernelGoal::Fail
        | KernelGoal::Throw(_) => {}
    }
    Ok(())
}

/// The arguments of a built-in that it looks at: all but the X of `X is E`.
fn stored_arguments(builtin: Builtin, arguments: &[Term]) -> &[Term]
    ensures { map plain result.now ≡ stored builtin (map plain arguments.now) }
{
    match (builtin, arguments) {
        (Builtin::Is, [_, expression @ ..]) => expression,
        _ => arguments,
    }
}

/// Puts each variable that is out and occurs twice among these into a cell. A goal of an accepted program has at most 512 of them.
fn see_repeated(env: &mut FactList, variables: &[u32])
    ensures facts { env.new ≡ repeated_seen env.old variables.now }
    ensures len { length env.new ≡ length env.old }
{
    for (place, variable) in variables.iter().enumerate() {
        if occurs_behind(variables, place, *variable) {
            see(env, *variable);
        }
    }
}

/// Whether a variable stands behind this place.
fn occurs_behind(variables: &[u32], place: usize, variable: u32) -> bool
    requires { place < length variables.now }
    ensures { result ≡ list_any (λ other. other == variable) (drop (place + 1) variables.now) }
{
    occurs(&variables[place + 1..], variable)
}

/// Whether a variable is among these.
fn occurs(variables: &[u32], variable: u32) -> bool
    ensures { result ≡ list_any (λ other. other == variable) variables.now }
{
    for other in variables {
        if *other == variable {
            return true;
        }
    }
    false
}
