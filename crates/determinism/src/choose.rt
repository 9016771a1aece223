//! Which argument tells clauses apart.
ghost use Rattle.std.specs.Prelude.{◌≡◌, IfOk};
ghost use Rattle.std.specs.List.{list_any};
ghost use Rattle.determinism.specs.Distinct.{is_other};
ghost use Rattle.determinism.specs.Selection.{first_key, has_key, keys_differ, tells_apart, IsLeast, IsSelected};

use crate::clause_key::clause_keys;
use crate::key::Key;
use aq_term::memory::Memory;
use flow_equations::fact_list::FactList;
use kernel_ir::kernel_predicate::KernelPredicate;
use std::alloc::Global;
use type_lattice::fact::{Fact, below};

/// The argument at which clauses are told apart: the least one that is never a variable at a call and at which two clauses have
/// different keys; where there is none, the least one at which some clause has a key.
pub fn selected_argument(
    alloc: Global,
    predicate: &KernelPredicate,
    call: &FactList,
) -> Result<Option<u8>, Memory>
    ensures { IfOk result (IsSelected predicate.now call.now) }
{
    match telling_argument(alloc, predicate, call)? {
        Some(argument) => Ok(Some(argument)),
        None => keyed_argument(alloc, predicate),
    }
}

/// The least argument that is never a variable at a call and at which two clauses have different keys.
fn telling_argument(
    alloc: Global,
    predicate: &KernelPredicate,
    call: &FactList,
) -> Result<Option<u8>, Memory>
    ensures { IfOk result (IsLeast (tells_apart predicate.now call.now) predicate.now.name.width) }
{
    for argument in 0..predicate.name.width {
        if tells_apart(alloc, predicate, call, argument)? {
            return Ok(Some(argument));
        }
    }
    Ok(None)
}

/// Whether the argument is never a variable at a call and two clauses have different keys at it.
fn tells_apart(
    alloc: Global,
    predicate: &KernelPredicate,
    call: &FactList,
    argument: u8,
) -> Result<bool, Memory>
    ensures { IfOk result (λ tells. tells ≡ tells_apart predicate.now call.now argument) }
{
    if !below(call.fact(argument as u32), Fact::Nonvar) {
        return Ok(false);
    }
    let keys = clause_keys(alloc, predicate.clauses.as_slice(), argument)?;
    Ok(keys_differ(keys.as_slice()))
}

/// The least argument at which some clause has a key.
fn keyed_argument(alloc: Global, predicate: &KernelPredicate) -> Result<Option<u8>, Memory>
    ensures { IfOk result (IsLeast (has_key predicate.now) predicate.now.name.width) }
{
    for argument in 0..predicate.name.width {
        if has_key(alloc, predicate, argument)? {
            return Ok(Some(argument));
        }
    }
    Ok(None)
}

/// Whether some clause has a key at the argument.
fn has_key(alloc: Global, predicate: &KernelPredicate, argument: u8) -> Result<bool, Memory>
    ensures { IfOk result (λ has. has ≡ has_key predicate.now argument) }
{
    let keys = clause_keys(alloc, predicate.clauses.as_slice(), argument)?;
    Ok(first_key(keys.as_slice()).is_some())
}

/// Whether two of the keys differ: whether one differs from the first.
fn keys_differ(keys: &[Option<Key>]) -> bool
    ensures { result ≡ keys_differ keys.now }
{
    match first_key(keys) {
        Some(key) => has_other(keys, key),
        None => false,
    }
}

/// The first key that there is.
fn first_key(keys: &[Option<Key>]) -> Option<Key>
    ensures { result ≡ first_key keys.now }
{
    for key in keys {
        if key.is_some() {
            return *key;
        }
    }
    None
}

/// Whether one of the keys is another than this one.
fn has_other(keys: &[Option<Key>], key: Key) -> bool
    ensures { result ≡ list_any (is_other key) keys.now }
{
    for other in keys {
        if is_other(key, *other) {
            return true;
        }
    }
    false
}

/// Whether there is a key, and it is another than this one.
fn is_other(key: Key, other: Option<Key>) -> bool
    ensures { result ≡ is_other key other }
{
    match other {
        Some(other) => other != key,
        None => false,
    }
}
