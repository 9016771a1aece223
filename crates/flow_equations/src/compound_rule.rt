ghost use Rattle.std.specs.Prelude.{◌≡◌, ◌==◌, length};
ghost use Rattle.std.specs.List.{list_all};
ghost use Rattle.type_lattice.specs.Facts.{below};
ghost use Rattle.type_lattice.specs.declared.fact.Fact.TheVariants as fact;
ghost use Rattle.flow_equations.specs.Env.{all_changed, fact_of};
ghost use Rattle.flow_equations.specs.FactRules.{made, part_of_ground};

use crate::env::{learn, see_all};
use crate::fact_list::FactList;
use type_lattice::fact::{Fact, below, with};

/// The goal `X = T`, T a compound in which these variables occur. Of them and X none is out that occurs twice.
pub fn compound_rule(env: &mut FactList, variable: u32, parts: &[u32])
    ensures { length env.new ≡ length env.old }
{
    let fact = env.fact(variable);
    if fact == Fact::Out {
        make(env, variable, parts);
    } else if below(fact, Fact::Ground) {
        take_apart(env, fact, parts);
    } else {
        see_all(env, parts);
        learn(env, variable, Fact::Nonvar);
    }
}

/// X is out: T is made here, and X is that very term.
fn make(env: &mut FactList, variable: u32, parts: &[u32])
    ensures { length env.new ≡ length env.old }
{
    let fact = made(
        are_below(env, parts, Fact::Full),
        are_below(env, parts, Fact::Ground),
    );
    env.set(variable, fact);
    see_all(env, parts);
}

/// The fact of a compound that is made here.
fn made(all_full: bool, all_ground: bool) -> Fact
    ensures { result ≡ made all_full all_ground }
{
    if all_full {
        Fact::Full
    } else if all_ground {
        Fact::GroundDirect
    } else {
        Fact::Direct
    }
}

/// Whether all these variables have a fact below this one.
fn are_below(env: &FactList, variables: &[u32], fact: Fact) -> bool
    ensures { result ≡ list_all (λ variable. below (fact_of env.now variable) fact) variables.now }
{
    for variable in variables {
        if !below(env.fact(*variable), fact) {
            return false;
        }
    }
    true
}

/// X is ground, and so are the parts that T takes it apart into.
fn take_apart(env: &mut FactList, whole: Fact, parts: &[u32])
    ensures facts { env.new ≡ all_changed (part_of_ground whole) env.old parts.now }
    ensures len { length env.new ≡ length env.old }
{
    for part in parts {
        let fact = part_of_ground(whole, env.fact(*part));
        env.set(*part, fact);
    }
}

/// The fact of a variable in T of `X = T`, by that of X, which is ground. One that was out is that very part.
fn part_of_ground(whole: Fact, part: Fact) -> Fact
    ensures { result ≡ part_of_ground whole part }
{
    match (whole, part) {
        (Fact::Full, Fact::Out) => Fact::Full,
        (_, Fact::Out) => Fact::Ground,
        _ => with(part, Fact::Ground),
    }
}
