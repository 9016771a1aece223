use aq_term::term::Term;
use determinism::key::Key;
use flow_equations::fact_list::FactList;
use kernel_ir::kernel_clause::KernelClause;
use kernel_ir::kernel_goal::KernelGoal;
use kernel_ir::kernel_predicate::KernelPredicate;
use std::alloc::Global;
use std::test::Fail;
use type_lattice::fact::{Fact, below};

/// What a clause's head wants at an argument: the constant or the functor of T in the first `V = T` of its leading unifications, V
/// the argument and T no variable.
fn key(clause: &KernelClause, argument: u32) -> Option<Key> {
    for goal in clause.goals.as_slice() {
        match goal {
            KernelGoal::Unify(_, Term::Var(_)) => {}
            KernelGoal::Unify(variable, term) if *variable == argument => return Key::of_term(term),
            KernelGoal::Unify(_, _) => {}
            _ => return None,
        }
    }
    None
}

/// The keys of all clauses at an argument.
fn keys(
    alloc: Global,
    predicate: &KernelPredicate,
    argument: u32,
) -> Result<Vec<Option<Key>>, Fail> {
    let mut keys = Vec::new(alloc);
    for clause in predicate.clauses.as_slice() {
        keys.push(key(clause, argument))?;
    }
    Ok(keys)
}

/// Whether two clauses have keys that differ.
fn differ(keys: &[Option<Key>]) -> bool {
    let mut first = None;
    for key in keys {
        match (first, key) {
            (None, Some(found)) => first = Some(*found),
            (Some(one), Some(found)) if one != *found => return true,
            _ => {}
        }
    }
    false
}

/// The selected argument: the least one that is no variable at any call and at which two clauses have keys that differ. Failing
/// that, the least one at which a clause has a key.
fn selected(
    alloc: Global,
    predicate: &KernelPredicate,
    call: &FactList,
) -> Result<Option<u32>, Fail> {
    let mut with_key = None;
    let mut argument: u32 = 0;
    for fact in call.as_slice() {
        let keys = keys(alloc, predicate, argument)?;
        if below(*fact, Fact::Nonvar) && differ(&keys) {
            return Ok(Some(argument));
        }
        if with_key.is_none() && keys.iter().any(|key| key.is_some()) {
            with_key = Some(argument);
        }
        argument = argument.saturating_add(1);
    }
    Ok(with_key)
}

/// How many keys stand at more than one clause.
fn shared(keys: &[Option<Key>]) -> u64 {
    let mut count: u64 = 0;
    for (number, key) in keys.iter().enumerate() {
        let before = keys
            .iter()
            .take(number)
            .filter(|other| **other == *key)
            .count();
        if before == 1 {
            count = count.saturating_add(1);
        }
    }
    count
}

/// At most so many `try` come of a predicate. A call keeps a choice only where clauses cannot be told apart: there is none of a
/// predicate of one clause; where each clause has a key at the selected argument, which is not a result, there is one for a variable
/// there, if some call may have one, and one for each key of more than one clause; else there is one.
pub fn most_try(alloc: Global, predicate: &KernelPredicate, call: &FactList) -> Result<u64, Fail> {
    if predicate.clauses.len() < 2 {
        return Ok(0);
    }
    let Some(argument) = selected(alloc, predicate, call)? else {
        return Ok(1);
    };
    let keys = keys(alloc, predicate, argument)?;
    let fact = call.fact(argument);
    if fact == Fact::Out || keys.iter().any(|key| key.is_none()) {
        return Ok(1);
    }
    let for_variable = u64::from(!below(fact, Fact::Nonvar));
    Ok(shared(&keys).saturating_add(for_variable))
}
