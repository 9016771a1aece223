use aq_term::entries::Entries;
use aq_term::memory::Memory;
use aq_term::proc_name::ProcName;
use flow_equations::call_facts::calls_of;
use flow_equations::entry_fact::entry_fact;
use flow_equations::env::first_env;
use flow_equations::fact_list::FactList;
use flow_equations::facts::Facts;
use flow_equations::predicate_facts::PredicateFacts;
use flow_equations::prepare::prepare;
use flow_equations::result_fact::result_facts;
use flow_equations::taken_order::taken_order;
use flow_equations::transfer::transfer;
use kernel_ir::kernel::Kernel;
use kernel_ir::kernel_clause::KernelClause;
use kernel_ir::kernel_predicate::KernelPredicate;
use std::alloc::Global;
use type_lattice::fact::Fact;

/// The facts after rounds over all clauses of all predicates that are called, each round on the facts of the one before and joined
/// with them, up to one that changes nothing.
pub fn rounds(alloc: Global, kernel: &Kernel, entries: &Entries) -> Result<Facts, Memory> {
    let mut facts = Facts::bottom(alloc, kernel)?;
    for _ in 0..most_rounds(&facts) {
        let next = round(alloc, kernel, entries, &facts)?;
        if are_same(next.as_slice(), facts.as_slice()) {
            break;
        }
        facts = next;
    }
    Ok(facts)
}

/// So many rounds are enough.
fn most_rounds(facts: &Facts) -> usize {
    let mut count = facts.len();
    for predicate in facts.as_slice() {
        count = count.saturating_add(predicate.call.len());
    }
    count.saturating_mul(12).saturating_add(1)
}

fn round(
    alloc: Global,
    kernel: &Kernel,
    entries: &Entries,
    before: &Facts,
) -> Result<Facts, Memory> {
    let mut after = copy_of(alloc, before)?;
    enter(alloc, entries, &mut after)?;
    for (place, predicate) in kernel.predicates.as_slice().iter().enumerate() {
        take_predicate(alloc, before, &mut after, place, predicate)?;
    }
    Ok(after)
}

fn enter(alloc: Global, entries: &Entries, after: &mut Facts) -> Result<(), Memory> {
    for entry in entries.as_slice() {
        let mut facts = FactList::new(alloc);
        for mode in entry.modes.as_slice() {
            facts.push(entry_fact(*mode))?;
        }
        let name = ProcName {
            name: entry.name,
            arity: entry.arity,
            part: 0,
            width: entry.arity,
        };
        note_call(after, &name, facts.as_slice());
    }
    Ok(())
}

fn note_call(after: &mut Facts, name: &ProcName, facts: &[Fact]) {
    if let Some(place) = after.place(name) {
        after.reach(place);
        after.raise_call(place, facts);
    }
}

fn take_predicate(
    alloc: Global,
    before: &Facts,
    after: &mut Facts,
    place: usize,
    predicate: &KernelPredicate,
) -> Result<(), Memory> {
    let Some(facts) = before.as_slice().get(place) else {
        return Ok(());
    };
    if facts.reached {
        for clause in predicate.clauses.as_slice() {
            if let Some(results) = take_clause(alloc, before, after, facts, predicate, clause)? {
                after.raise_success(place, results.as_slice());
            }
        }
    }
    Ok(())
}

/// The facts of the arguments at the clause's end, where that is come to.
fn take_clause(
    alloc: Global,
    before: &Facts,
    after: &mut Facts,
    facts: &PredicateFacts,
    predicate: &KernelPredicate,
    clause: &KernelClause,
) -> Result<Option<FactList>, Memory> {
    let mut env = first_env(alloc, &facts.call, predicate.barrier, clause.variables)?;
    let order = taken_order(alloc, clause, &facts.call)?;
    for number in order.as_slice() {
        let Some(goal) = clause.goals.as_slice().get(*number) else {
            continue;
        };
        let mut ready = env.copy(alloc)?;
        prepare(alloc, goal, &mut ready)?;
        let calls = calls_of(alloc, goal, &ready)?;
        for call in calls.as_slice() {
            note_call(after, &call.name, call.facts.as_slice());
        }
        match transfer(alloc, goal, &env, before)? {
            Some(next) => env = next,
            None => return Ok(None),
        }
    }
    Ok(Some(result_facts(alloc, &facts.call, &env)?))
}

fn copy_of(alloc: Global, facts: &Facts) -> Result<Facts, Memory> {
    let mut items = Vec::new(alloc);
    for predicate in facts.as_slice() {
        items.push(PredicateFacts {
            name: predicate.name,
            reached: predicate.reached,
            call: predicate.call.copy(alloc)?,
            success: predicate.success.copy(alloc)?,
        })?;
    }
    Facts::from_vec(alloc, items)
}

/// Whether predicates have the same facts.
pub fn are_same(some: &[PredicateFacts], others: &[PredicateFacts]) -> bool {
    if some.len() != others.len() {
        return false;
    }
    for (one, other) in some.iter().zip(others) {
        if one.name != other.name
            || one.reached != other.reached
            || one.call.as_slice() != other.call.as_slice()
            || one.success.as_slice() != other.success.as_slice()
        {
            return false;
        }
    }
    true
}
