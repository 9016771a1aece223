ghost use Rattle.std.specs.Prelude.{◌≡◌, ◌++◌, ◌∷◌, [], length, slice_get, slice_set, IfOk};
ghost use Rattle.bam_types.specs.Identities.{known_at, learn};

use crate::identity::Identity;
use crate::knowledge::both_known;
use aq_term::memory::Memory;
use bam_code::known::Known;
use std::alloc::Global;
use std::marker::Model;

/// What each identity of a state stands for. Contracts see the list of that.
#[derive(Debug, Drop)]
pub struct Identities {
    items: Vec<Identity>,
}

impl Model for Identities {
    ghost use Rattle.std.specs.Prelude.{List};
    ghost use Rattle.bam_types.specs.declared.identity.Identity.{Identity};

    ghost Value = { List Identity };

    ghost view = { λ a. a.items.items };
}

impl Identities {
    pub fn new(alloc: Global) -> Identities
        ensures { result ≡ [] }
    {
        Identities {
            items: Vec::new(alloc),
        }
    }

    /// Takes all identities out.
    pub fn clear(&mut self)
        ensures { self.new ≡ [] }
    {
        self.items.clear();
    }

    /// Adds an identity, and gives its number. More than a `u32` can number is want of memory.
    pub fn add(&mut self, identity: Identity) -> Result<u32, Memory>
        ensures { IfOk result (λ number. (number ≡ length self.old) × (self.new ≡ self.old ++ identity ∷ [])) }
    {
        let number = u32::try_from(self.items.len()).ok().ok_or(Memory)?;
        self.items.push(identity)?;
        Ok(number)
    }

    /// What an identity stands for.
    pub fn get(&self, number: u32) -> Option<Identity>
        ensures { result ≡ slice_get self.now number }
    {
        self.items.get(number as usize).copied()
    }

    /// Changes what an identity stands for. Where there is none of the number, nothing changes.
    pub fn set(&mut self, number: u32, identity: Identity)
        ensures { self.new ≡ slice_set self.old number identity }
    {
        let at = number as usize;
        if at < self.items.len() {
            self.items[at] = identity;
        }
    }

    /// What is known of an identity's term. Of a hole nothing is known.
    pub fn known(&self, number: u32) -> Known
        ensures { result ≡ known_at self.now number }
    {
        match self.get(number) {
            Some(Identity::Term(known)) => known,
            _ => Known::Any,
        }
    }

    /// Notes that so much is known of an identity's term.
    pub fn learn(&mut self, number: u32, known: Known)
        ensures { self.new ≡ learn self.old number known }
    {
        if let Some(Identity::Term(before)) = self.get(number) {
            self.set(number, Identity::Term(both_known(before, known)));
        }
    }
}
