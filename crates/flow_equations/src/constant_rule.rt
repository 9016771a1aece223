ghost use Rattle.std.specs.Prelude.{◌≡◌};
ghost use Rattle.flow_equations.specs.Env.{changed};
ghost use Rattle.flow_equations.specs.FactRules.{equal_to_ground};

use crate::fact_list::FactList;
use type_lattice::fact::{Fact, with};

/// The fact of X where `X = c` has succeeded, c a constant or a compound without variables: an X that was out is that very term.
pub fn equal_to_ground(fact: Fact) -> Fact
    ensures { result ≡ equal_to_ground fact }
{
    match fact {
        Fact::Out => Fact::Full,
        other => with(other, Fact::Ground),
    }
}

/// The goal `X = c`, c a constant or a compound without variables.
pub fn constant_rule(env: &mut FactList, variable: u32)
    ensures { env.new ≡ changed equal_to_ground env.old variable }
{
    let fact = equal_to_ground(env.fact(variable));
    env.set(variable, fact);
}
