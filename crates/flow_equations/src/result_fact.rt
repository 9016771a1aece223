ghost use Rattle.std.specs.Prelude.{◌≡◌, IfOk, length};
ghost use Rattle.flow_equations.specs.FactRules.{result_of};

use crate::fact_list::FactList;
use crate::seen::seen;
use aq_term::memory::Memory;
use std::alloc::Global;
use type_lattice::fact::{Fact, strip};

/// The fact of an argument where its predicate succeeds, by the fact at the call and that at the end of a clause.
pub fn result_fact(call: Fact, end: Fact) -> Fact
    ensures { result ≡ result_of call end }
{
    match call {
        Fact::Out => seen(end),
        _ => strip(end),
    }
}

/// The facts of a predicate's arguments where it succeeds by a clause with these facts at its end.
pub fn result_facts(alloc: Global, call: &FactList, end: &FactList) -> Result<FactList, Memory>
    ensures { IfOk result (λ facts. length facts ≡ length call.now) }
{
    let mut facts = FactList::new(alloc);
    for (place, fact) in call.as_slice().iter().enumerate() {
        let end = match end.as_slice().get(place) {
            Some(end) => *end,
            None => Fact::Any,
        };
        facts.push(result_fact(*fact, end))?;
    }
    Ok(facts)
}
