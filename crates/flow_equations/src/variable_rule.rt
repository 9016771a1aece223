ghost use Rattle.std.specs.Prelude.{◌≡◌, slice_set};
ghost use Rattle.flow_equations.specs.Env.{fact_of};
ghost use Rattle.flow_equations.specs.FactRules.{equal_to};

use crate::fact_list::FactList;
use type_lattice::fact::{Fact, strip, with};

/// The fact of X where `X = Y` has succeeded. Where both were out they are one new variable, which may be anything. Where one was
/// out it is what the other is. Else what is known of each term is known of the other.
pub fn equal_to(fact: Fact, other: Fact) -> Fact
    ensures { result ≡ equal_to fact other }
{
    match (fact, other) {
        (Fact::Out, Fact::Out) => Fact::Any,
        (Fact::Out, known) | (known, Fact::Out) => known,
        _ => with(fact, strip(other)),
    }
}

/// The goal `X = Y`, which may be one variable.
pub fn variable_rule(env: &mut FactList, left: u32, right: u32)
    ensures { env.new ≡ slice_set (slice_set env.old left (equal_to (fact_of env.old left) (fact_of env.old right)))
        right (equal_to (fact_of env.old right) (fact_of env.old left)) }
{
    let left_fact = env.fact(left);
    let right_fact = env.fact(right);
    env.set(left, equal_to(left_fact, right_fact));
    env.set(right, equal_to(right_fact, left_fact));
}
