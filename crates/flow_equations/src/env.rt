ghost use Rattle.std.specs.Prelude.{◌≡◌, ◌⊎◌, IfOk, length};
ghost use Rattle.type_lattice.specs.Facts.{with};
ghost use Rattle.type_lattice.specs.declared.fact.Fact.TheVariants as fact;
ghost use Rattle.flow_equations.specs.Env.{all_changed, changed};
ghost use Rattle.flow_equations.specs.FactRules.{part_of_ground, seen};

use crate::fact_list::FactList;
use crate::seen::seen;
use aq_term::memory::Memory;
use std::alloc::Global;
use type_lattice::fact::{Fact, with};

/// The facts of a clause's variables before its first goal. Those of the head have the facts of the call. Behind them comes the
/// barrier, where the predicate has one, of which nothing is said. All others are not seen yet.
pub fn first_env(
    alloc: Global,
    call: &FactList,
    barrier: bool,
    variables: u32,
) -> Result<FactList, Memory> {
    let mut env = call.copy(alloc)?;
    if barrier {
        env.push(Fact::Any)?;
    }
    for _ in env.len()..variables as usize {
        env.push(Fact::Out)?;
    }
    Ok(env)
}

/// Puts a variable that was out into a cell.
pub fn see(env: &mut FactList, variable: u32)
    ensures { env.new ≡ changed seen env.old variable }
{
    let fact = seen(env.fact(variable));
    env.set(variable, fact);
}

/// Puts those of the variables that were out into cells.
pub fn see_all(env: &mut FactList, variables: &[u32])
    ensures facts { env.new ≡ all_changed seen env.old variables.now }
    ensures len { length env.new ≡ length env.old }
{
    for variable in variables {
        see(env, *variable);
    }
}

/// Adds to the fact of a variable what is known of its term now, which is `Ground`, `Nonvar` or `Any`.
pub fn learn(env: &mut FactList, variable: u32, known: Fact)
    requires { (known ≡ fact.Ground) ⊎ ((known ≡ fact.Nonvar) ⊎ (known ≡ fact.Any)) }
    ensures { env.new ≡ changed (λ before. with before known) env.old variable }
{
    let fact = with(env.fact(variable), known);
    env.set(variable, fact);
}

/// The terms of all these variables are ground.
pub fn ground_all(env: &mut FactList, variables: &[u32])
    ensures facts { env.new ≡ all_changed (λ before. with before fact.Ground) env.old variables.now }
    ensures len { length env.new ≡ length env.old }
{
    for variable in variables {
        learn(env, *variable, Fact::Ground);
    }
}
