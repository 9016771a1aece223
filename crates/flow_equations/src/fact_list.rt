ghost use Rattle.std.specs.Prelude.{◌≡◌, ◌≤◌, ◌+◌, ◌++◌, ◌∷◌, [], OnOk, OnErr, IfOk, get_or, length, replicate, slice_set};
ghost use Rattle.type_lattice.specs.Facts.{join};
ghost use Rattle.flow_equations.specs.Env.{changed, fact_of};
ghost use Rattle.flow_equations.specs.Rises.{all_rises_of, one_where};

use aq_term::memory::Memory;
use smallvec::SmallVec;
use std::alloc::Global;
use std::marker::Model;
use type_lattice::fact::{Fact, join};

/// Facts in order: those of a predicate's arguments, or those of a clause's variables by their numbers. Contracts see the list of
/// them.
#[derive(Debug, Drop)]
pub struct FactList {
    items: SmallVec<Fact, 8>,
}

impl Model for FactList {
    ghost use Rattle.std.specs.Prelude.{List};
    ghost use Rattle.type_lattice.specs.declared.fact.Fact.{Fact};

    ghost Value = { List Fact };

    ghost view = { λ a. a.items.items };
}

impl FactList {
    pub fn new(alloc: Global) -> FactList
        ensures { result ≡ [] }
    {
        FactList {
            items: SmallVec::new(alloc),
        }
    }

    /// The list of these facts, with no copy.
    pub fn from_vec(items: Vec<Fact>) -> FactList
        ensures { result ≡ items.items }
    {
        FactList {
            items: SmallVec::from_vec(items),
        }
    }

    /// A list of one fact again and again.
    pub fn filled(alloc: Global, fact: Fact, count: usize) -> Result<FactList, Memory>
        ensures { IfOk result (λ facts. facts ≡ replicate count fact) }
    {
        Ok(FactList::from_vec(vec![in alloc; fact; count]?))
    }

    /// A list that is equal to it.
    pub fn copy(&self, alloc: Global) -> Result<FactList, Memory>
        ensures { IfOk result (λ facts. facts ≡ self.now) }
    {
        Ok(FactList {
            items: SmallVec::from_slice(alloc, self.items.as_slice())?,
        })
    }

    pub fn as_slice(&self) -> &[Fact]
        ensures { result.now ≡ self.now }
    {
        self.items.as_slice()
    }

    pub fn len(&self) -> usize
        ensures { result ≡ length self.now }
    {
        self.items.len()
    }

    /// Puts a fact at the end. After want of memory the list is as it was.
    pub fn push(&mut self, fact: Fact) -> Result<(), Memory>
        ensures ok { OnOk result (self.new ≡ self.old ++ fact ∷ []) }
        ensures err { OnErr result (self.new ≡ self.old) }
    {
        self.items.push(fact)?;
        Ok(())
    }

    /// The fact of a variable. A number past the end has `Any`.
    pub fn fact(&self, variable: u32) -> Fact
        ensures { result ≡ fact_of self.now variable }
    {
        match self.items.as_slice().get(variable as usize) {
            Some(fact) => *fact,
            None => Fact::Any,
        }
    }

    /// Gives a variable a fact. A number past the end changes nothing.
    pub fn set(&mut self, variable: u32, fact: Fact)
        ensures { self.new ≡ slice_set self.old variable fact }
    {
        if let Some(item) = self.items.get_mut(variable as usize) {
            *item = fact;
        }
    }

    /// Joins facts into these, place by place, as far as both lists go, and says whether one of these rose.
    pub fn raise(&mut self, facts: &[Fact]) -> bool
        ensures len { length self.new ≡ length self.old }
        ensures rises { all_rises_of self.new + one_where result ≤ all_rises_of self.old }
    {
        let mut rose = false;
        for (place, fact) in facts.iter().enumerate() {
            if self.raise_at(place, *fact) {
                rose = true;
            }
        }
        rose
    }

    /// Joins a fact into the one at a place, and says whether that rose.
    fn raise_at(&mut self, place: usize, fact: Fact) -> bool
        ensures joined { self.new ≡ changed (λ own. join own fact) self.old place }
        ensures len { length self.new ≡ length self.old }
        ensures rises { all_rises_of self.new + one_where result ≤ all_rises_of self.old }
    {
        let Some(own) = self.items.get_mut(place) else {
            return false;
        };
        let joined = join(*own, fact);
        if joined == *own {
            return false;
        }
        *own = joined;
        true
    }
}
