ghost use Rattle.std.specs.Prelude.{◌≡◌, ℕ, [], not, IfOk, OnOk};
ghost use Rattle.source_program.specs.KeySets.{is_among, with_key};

use aq_term::atom::Atom;
use aq_term::memory::Memory;
use indexmap::IndexSet;
use std::alloc::Global;
use std::marker::Model;

/// Predicates by name and number of arguments, in the order in which they were added. Contracts see the list of the numbers of
/// their names with their numbers of arguments.
#[derive(Drop)]
pub struct PredicateSet {
    keys: IndexSet<(u32, usize)>,
}

impl Model for PredicateSet {
    ghost use Rattle.std.specs.Prelude.{ℕ, List};

    ghost Value = { List (ℕ × ℕ) };

    ghost view = { λ s. s.keys.keys };
}

/// Where a predicate stands among others, from 0, and whether it is new there.
#[derive(Clone, Copy, Debug)]
pub struct Added {
    pub place: usize,
    pub is_new: bool,
}

impl PredicateSet {
    pub fn new(alloc: Global) -> PredicateSet
        ensures { result ≡ [] }
    {
        PredicateSet {
            keys: IndexSet::new(alloc),
        }
    }

    /// Adds a predicate at the end, where it is not there.
    pub fn add(&mut self, name: Atom, arity: usize) -> Result<Added, Memory>
        ensures keys { OnOk result (self.new ≡ with_key self.old (name.number, arity)) }
        ensures is_new { IfOk result (λ added. added.is_new ≡ not (is_among self.old (name.number, arity))) }
    {
        let (place, is_new) = self.keys.insert_full((name.number, arity))?;
        Ok(Added { place, is_new })
    }

    pub fn has(&self, name: Atom, arity: usize) -> bool
        ensures { result ≡ is_among self.now (name.number, arity) }
    {
        self.keys.contains(&(name.number, arity))
    }
}
