ghost use Rattle.std.specs.Prelude.{◌≡◌, ◌+◌, IfOk, length, map};
ghost use Rattle.aq_term.specs.PlainOf.{plain};
ghost use Rattle.flow_equations.specs.ArgumentFacts.{argument_fact};

use crate::fact_list::FactList;
use aq_term::memory::Memory;
use aq_term::term::Term;
use std::alloc::Global;
use type_lattice::fact::Fact;

/// The facts of a call's arguments: a variable has its own, and a constant is full.
pub fn argument_facts(alloc: Global, env: &FactList, arguments: &[Term]) -> Result<FactList, Memory>
    ensures { IfOk result (λ facts. facts ≡ map (argument_fact env.now) (map plain arguments.now)) }
{
    let mut facts = FactList::new(alloc);
    for argument in arguments {
        facts.push(argument_fact(env, argument))?;
    }
    Ok(facts)
}

/// The facts of the arguments of a handler: the ball, of which nothing is known, and then the others.
pub fn handler_facts(alloc: Global, env: &FactList, others: &[Term]) -> Result<FactList, Memory>
    ensures { IfOk result (λ facts. length facts ≡ length others.now + 1) }
{
    let mut facts = FactList::new(alloc);
    facts.push(Fact::Any)?;
    for argument in others {
        facts.push(argument_fact(env, argument))?;
    }
    Ok(facts)
}

/// The fact of an argument. A compound is no argument of a call.
fn argument_fact(env: &FactList, argument: &Term) -> Fact
    ensures { result ≡ argument_fact env.now (plain argument.now) }
{
    match argument {
        Term::Var(variable) => env.fact(*variable),
        Term::Int(_) | Term::Atom(_) => Fact::Full,
        Term::Compound(_, _) => Fact::Any,
    }
}
