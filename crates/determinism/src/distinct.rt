//! Whether keys are there and differ.
ghost use Rattle.std.specs.Prelude.{◌≡◌, IfOk};
ghost use Rattle.determinism.specs.Distinct.{are_distinct};
ghost use Rattle.determinism.specs.Entries.{entry_of};

use crate::key::Key;
use aq_term::memory::Memory;
use std::alloc::Global;
use std::collections::HashSet;

/// A key as a set holds it: 0 for an integer, 1 for an atom, 2 for a functor; the arity; the name's number; the value.
type Entry = (u8, u8, u32, i64);

fn entry(key: Key) -> Entry
    ensures { result ≡ entry_of key }
{
    match key {
        Key::Int(value) => (0, 0, 0, value),
        Key::Atom(name) => (1, 0, name.number, 0),
        Key::Functor(functor) => (2, functor.arity, functor.name.number, 0),
    }
}

/// Whether there is a key at each place and no two of them are equal.
pub fn are_distinct(alloc: Global, keys: &[Option<Key>]) -> Result<bool, Memory>
    ensures { IfOk result (λ distinct. distinct ≡ are_distinct keys.now) }
{
    let mut seen = HashSet::new(alloc);
    for key in keys {
        let Some(key) = key else {
            return Ok(false);
        };
        if !seen.insert(entry(*key))? {
            return Ok(false);
        }
    }
    Ok(true)
}
