ghost use Rattle.std.specs.Prelude.{◌≡◌, ◌++◌, ◌∷◌, [], OnOk, OnErr, IfOk, length, replicate, slice_set};
ghost use Rattle.unify_special.specs.declared.place.Place.TheVariants as place;
ghost use Rattle.unify_special.specs.Places.{place_of};

use crate::place::Place;
use aq_term::memory::Memory;
use std::alloc::Global;
use std::marker::Model;

/// Where the variables of a clause stand, by their numbers. Contracts see the list of the places.
#[derive(Debug, Drop)]
pub struct PlaceList {
    items: Vec<Place>,
}

impl Model for PlaceList {
    ghost use Rattle.std.specs.Prelude.{List};
    ghost use Rattle.unify_special.specs.declared.place.Place.{Place};

    ghost Value = { List Place };

    ghost view = { λ a. a.items.items };
}

impl PlaceList {
    pub fn new(alloc: Global) -> PlaceList
        ensures { result ≡ [] }
    {
        PlaceList {
            items: Vec::new(alloc),
        }
    }

    /// This many variables that stand nowhere.
    pub fn nowhere(alloc: Global, count: usize) -> Result<PlaceList, Memory>
        ensures { IfOk result (λ places. places ≡ replicate count place.Nowhere) }
    {
        Ok(PlaceList {
            items: vec![in alloc; Place::Nowhere; count]?,
        })
    }

    /// The list of these places, with no copy.
    pub fn from_vec(items: Vec<Place>) -> PlaceList
        ensures { result ≡ items.items }
    {
        PlaceList { items }
    }

    pub fn as_slice(&self) -> &[Place]
        ensures { result.now ≡ self.now }
    {
        self.items.as_slice()
    }

    pub fn len(&self) -> usize
        ensures { result ≡ length self.now }
    {
        self.items.len()
    }

    /// Puts the place of one more variable at the end. After want of memory the list is as it was.
    pub fn push(&mut self, place: Place) -> Result<(), Memory>
        ensures ok { OnOk result (self.new ≡ self.old ++ place ∷ []) }
        ensures err { OnErr result (self.new ≡ self.old) }
    {
        self.items.push(place)?;
        Ok(())
    }

    /// The place of a variable. A number past the end stands nowhere.
    pub fn get(&self, variable: u32) -> Place
        ensures { result ≡ place_of self.now variable }
    {
        match self.items.get(variable as usize) {
            Some(place) => *place,
            None => Place::Nowhere,
        }
    }

    /// Gives a variable a place. A number past the end changes nothing.
    pub fn set(&mut self, variable: u32, place: Place)
        ensures { self.new ≡ slice_set self.old variable place }
    {
        if let Some(item) = self.items.get_mut(variable as usize) {
            *item = place;
        }
    }
}
