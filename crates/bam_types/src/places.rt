ghost use Rattle.std.specs.Prelude.{◌≡◌, [], OnOk, is_some, map};
ghost use Rattle.bam_types.specs.Weakening.{
  held_at,
  count_set,
  set_place,
  unset_place,
  without,
  weaken_place,
  weaken_places,
  whole_place,
  learn_whole,
  learn_wholes,
  passed_type,
  pass_place,
  learn_passed,
  learn_all_passed,
};

use crate::held::Held;
use crate::identities::Identities;
use crate::place_types::{place_with, strip_place, weakened_place, whole};
use aq_term::memory::Memory;
use bam_code::place_type::PlaceType;
use std::alloc::Global;
use std::marker::Model;

/// The registers or the slots that are set, by their numbers. Contracts see the list of what each holds; a place past its end
/// is unset.
#[derive(Debug, Drop)]
pub struct Places {
    held: Vec<Option<Held>>,
}

impl Model for Places {
    ghost use Rattle.std.specs.Prelude.{List, Option};
    ghost use Rattle.bam_types.specs.declared.held.Held.{Held};

    ghost Value = { List (Option Held) };

    ghost view = { λ a. a.held.items };
}

impl Places {
    pub fn new(alloc: Global) -> Places
        ensures { result ≡ [] }
    {
        Places {
            held: Vec::new(alloc),
        }
    }

    /// What the place of this number holds, or none where it is unset.
    pub fn get(&self, number: usize) -> Option<Held>
        ensures { result ≡ held_at self.now number }
    {
        match self.held.get(number) {
            Some(held) => *held,
            None => None,
        }
    }

    /// How many places are set.
    pub fn count(&self) -> usize
        ensures { result ≡ count_set self.now }
    {
        count_set(self.held.as_slice())
    }

    /// Sets a place.
    pub fn set(&mut self, number: u16, held: Held) -> Result<(), Memory>
        ensures { OnOk result (self.new ≡ set_place self.old number held) }
    {
        let at = usize::from(number);
        if self.held.len() <= at {
            self.held.resize(at + 1, None)?;
        }
        self.held[at] = Some(held);
        Ok(())
    }

    /// Unsets a place.
    pub fn unset(&mut self, number: u16)
        ensures { self.new ≡ unset_place self.old number }
    {
        let at = usize::from(number);
        if at < self.held.len() {
            self.held[at] = None;
        }
    }

    /// Unsets all places.
    pub fn clear(&mut self)
        ensures { self.new ≡ [] }
    {
        self.held.clear();
    }

    /// Unsets each place with this identity.
    pub fn unset_all_of(&mut self, identity: u32)
        ensures { self.new ≡ map (without identity) self.old }
    {
        for place in self.held.iter_mut() {
            *place = without(identity, *place);
        }
    }

    /// Takes each reference to an unbound cell for any word, since cells were bound.
    pub fn weaken(&mut self, identities: &Identities)
        ensures { self.new ≡ weaken_places identities.now self.old }
    {
        for place in self.held.iter_mut() {
            *place = weakened(identities, *place);
        }
    }

    /// Takes each structure as whole, since no hole that was made is unfilled.
    pub fn make_whole(&mut self)
        ensures { self.new ≡ map whole_place self.old }
    {
        for place in self.held.iter_mut() {
            *place = made_whole(*place);
        }
    }

    /// Notes what each structure says of its term once it is whole.
    pub fn learn_whole(&self, identities: &mut Identities)
        ensures { identities.new ≡ learn_wholes identities.old self.now }
    {
        for place in self.held.iter() {
            learn_whole(identities, *place);
        }
    }

    /// Takes each place with the identity of a hole as a cell, since the hole was passed to a procedure that filled it.
    pub fn pass(&mut self, identity: u32)
        ensures { self.new ≡ map (pass_place identity) self.old }
    {
        for place in self.held.iter_mut() {
            *place = passed_place(identity, *place);
        }
    }

    /// Notes what each place with the identity of a hole that was passed says of the term that was filled in.
    pub fn learn_passed(&self, identity: u32, identities: &mut Identities)
        ensures { identities.new ≡ learn_all_passed identity identities.old self.now }
    {
        for place in self.held.iter() {
            learn_passed(identity, identities, *place);
        }
    }
}

fn count_set(places: &[Option<Held>]) -> usize
    ensures { result ≡ count_set places.now }
{
    let mut count = 0;
    for place in places {
        if is_set(place) {
            count += 1;
        }
    }
    count
}

fn is_set(place: &Option<Held>) -> bool
    ensures { result ≡ is_some place.now }
{
    place.is_some()
}

fn without(identity: u32, place: Option<Held>) -> Option<Held>
    ensures { result ≡ without identity place }
{
    match place {
        Some(held) => {
            if held.identity == identity {
                None
            } else {
                Some(held)
            }
        }
        None => None,
    }
}

fn weakened(identities: &Identities, place: Option<Held>) -> Option<Held>
    ensures { result ≡ weaken_place identities.now place }
{
    match place {
        Some(held) => {
            let known = identities.known(held.identity);
            Some(Held {
                holds: weakened_place(place_with(held.holds, known)),
                identity: held.identity,
            })
        }
        None => None,
    }
}

fn made_whole(place: Option<Held>) -> Option<Held>
    ensures { result ≡ whole_place place }
{
    match place {
        Some(held) => Some(Held {
            holds: whole(held.holds),
            identity: held.identity,
        }),
        None => None,
    }
}

fn learn_whole(identities: &mut Identities, place: Option<Held>)
    ensures { identities.new ≡ learn_whole identities.old place }
{
    if let Some(held) = place {
        identities.learn(held.identity, strip_place(whole(held.holds)));
    }
}

/// A place after the hole of this identity was passed.
fn passed_place(identity: u32, place: Option<Held>) -> Option<Held>
    ensures { result ≡ pass_place identity place }
{
    match place {
        Some(held) => {
            if held.identity == identity {
                Some(Held {
                    holds: passed_type(held.holds),
                    identity: held.identity,
                })
            } else {
                Some(held)
            }
        }
        None => None,
    }
}

fn learn_passed(identity: u32, identities: &mut Identities, place: Option<Held>)
    ensures { identities.new ≡ learn_passed identity identities.old place }
{
    if let Some(held) = place {
        if held.identity == identity {
            identities.learn(identity, strip_place(passed_type(held.holds)));
        }
    }
}

/// The type of a place that held a hole which was passed.
fn passed_type(place: PlaceType) -> PlaceType
    ensures { result ≡ passed_type place }
{
    match place {
        PlaceType::Hole(word) => PlaceType::Cell(word),
        other => other,
    }
}
