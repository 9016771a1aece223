ghost use Rattle.std.specs.Prelude.{◌≡◌, [], OnOk};
ghost use Rattle.bam_types.specs.States.{
  cleared,
  kept,
  at,
  register,
  slot,
  has_slot,
  identity_of,
  is_made,
  has_filled_all,
  set_held,
  set_new,
  set_register,
  weaken,
  fill,
  settle,
  unset_all_of,
  caught_at,
};

use crate::argument::Argument;
use crate::arguments::Arguments;
use crate::caught::Caught;
use crate::held::Held;
use crate::identities::Identities;
use crate::identity::Identity;
use crate::opening::Opening;
use crate::place_types::{place_with, strip_place};
use crate::places::Places;
use aq_term::memory::Memory;
use bam_code::place::Place;
use bam_code::place_type::PlaceType;
use std::alloc::Global;

/// What the verifier knows before a line.
///
/// The type of a place is the one that is kept, with what is known of its identity: `at` and `register` give that.
#[derive(Debug, Drop)]
pub struct State {
    /// The size of the frame, where there is one.
    pub frame: Option<u16>,
    pub registers: Places,
    pub slots: Places,
    pub identities: Identities,
    /// What is known of each argument, by its number.
    pub arguments: Arguments,
    /// The structure whose pushes are due.
    pub opening: Option<Opening>,
    /// How many of the holes that lines made are unfilled.
    pub made: u32,
    /// Whether a catcher of this procedure is in force.
    pub catching: bool,
    /// By the number of a ball's label, the number that the `catch` lines before name with it.
    pub caught: Caught,
}

impl State {
    /// The state of no procedure.
    pub fn new(alloc: Global) -> State {
        State {
            frame: None,
            registers: Places::new(alloc),
            slots: Places::new(alloc),
            identities: Identities::new(alloc),
            arguments: Arguments::new(alloc),
            opening: None,
            made: 0,
            catching: false,
            caught: Caught::new(alloc),
        }
    }

    /// Forgets all but which labels of balls were named.
    pub fn clear(&mut self)
        ensures { self.new ≡ cleared self.old }
    {
        self.frame = None;
        self.registers.clear();
        self.slots.clear();
        self.identities.clear();
        self.arguments.clear();
        self.opening = None;
        self.made = 0;
        self.catching = false;
    }

    /// What is kept of a place, with what is known of its identity, or none where it is unset. A slot past the frame is
    /// looked up too.
    pub fn at(&self, place: Place) -> Option<Held>
        ensures { result ≡ at self.now place }
    {
        let held = self.kept(place)?;
        let known = self.identities.known(held.identity);
        Some(Held {
            holds: place_with(held.holds, known),
            identity: held.identity,
        })
    }

    /// What is kept of a place, without what is known of its identity.
    pub fn kept(&self, place: Place) -> Option<Held>
        ensures { result ≡ kept self.now place }
    {
        match place {
            Place::Register(number) => self.registers.get(number as usize),
            Place::Slot(number) => self.slots.get(number as usize),
        }
    }

    /// What a register holds.
    pub fn register(&self, number: u16) -> Option<Held>
        ensures { result ≡ register self.now number }
    {
        self.at(Place::Register(number))
    }

    /// What a slot within the frame holds.
    pub fn slot(&self, number: u8) -> Option<Held>
        ensures { result ≡ slot self.now number }
    {
        if self.has_slot(number) {
            self.at(Place::Slot(number))
        } else {
            None
        }
    }

    /// Whether the frame has a slot of this number.
    pub fn has_slot(&self, number: u8) -> bool
        ensures { result ≡ has_slot self.now number }
    {
        match self.frame {
            Some(size) => u16::from(number) < size,
            None => false,
        }
    }

    /// The identity of an argument's term, or of its unfilled hole.
    pub fn identity_of(&self, argument: usize) -> Option<u32>
        ensures { result ≡ identity_of self.now argument }
    {
        match self.arguments.get(argument) {
            Some(Argument::Term(identity) | Argument::Unfilled(identity)) => Some(identity),
            _ => None,
        }
    }

    /// The number that the `catch` lines before name with a ball's label.
    pub fn caught_at(&self, label: u32) -> Option<u16>
        ensures { result ≡ caught_at self.now label }
    {
        self.caught.at(label)
    }

    /// Whether an identity is that of an unfilled hole that a line made.
    pub fn is_made(&self, identity: u32) -> bool
        ensures { result ≡ is_made self.now identity }
    {
        matches!(self.identities.get(identity), Some(Identity::Made))
    }

    /// Whether the hole of each result of the procedure was filled.
    pub fn has_filled_all(&self) -> bool
        ensures { result ≡ has_filled_all self.now }
    {
        self.arguments
            .as_slice()
            .iter()
            .all(|argument| argument.is_filled())
    }

    /// Sets a place to a word with this identity, of whose term its type's is then known.
    pub fn set(&mut self, place: Place, held: Held) -> Result<(), Memory>
        ensures { OnOk result (self.new ≡ set_held self.old place held) }
    {
        self.identities
            .learn(held.identity, strip_place(held.holds));
        match place {
            Place::Register(number) => self.registers.set(number, held),
            Place::Slot(number) => self.slots.set(u16::from(number), held),
        }
    }

    /// Sets a place to a word with a new identity.
    pub fn set_new(&mut self, place: Place, holds: PlaceType) -> Result<(), Memory>
        ensures { OnOk result (self.new ≡ set_new self.old place holds) }
    {
        let identity = self.identities.add(Identity::Term(strip_place(holds)))?;
        self.set(place, Held { holds, identity })
    }

    /// Sets a register to a word with a new identity.
    pub fn set_register(&mut self, number: u16, holds: PlaceType) -> Result<(), Memory>
        ensures { OnOk result (self.new ≡ set_register self.old number holds) }
    {
        self.set_new(Place::Register(number), holds)
    }

    /// Takes each reference to an unbound cell for any word, since cells were bound.
    pub fn weaken(&mut self)
        ensures { self.new ≡ weaken self.old }
    {
        self.registers.weaken(&self.identities);
        self.slots.weaken(&self.identities);
    }

    /// Notes that the hole of this identity was filled.
    pub fn fill(&mut self, identity: u32)
        ensures { self.new ≡ fill self.old identity }
    {
        match self.identities.get(identity) {
            Some(Identity::Own(number)) => self.arguments.set(number, Argument::Filled),
            Some(Identity::Made) => self.made = self.made.saturating_sub(1),
            _ => {}
        }
    }

    /// Unsets each place with this identity.
    pub fn unset_all_of(&mut self, identity: u32)
        ensures { self.new ≡ unset_all_of self.old identity }
    {
        self.registers.unset_all_of(identity);
        self.slots.unset_all_of(identity);
    }

    /// Takes each structure as whole where no hole that was made is unfilled.
    pub fn settle(&mut self)
        ensures { self.new ≡ settle self.old }
    {
        if self.made == 0 {
            self.registers.learn_whole(&mut self.identities);
            self.registers.make_whole();
            self.slots.learn_whole(&mut self.identities);
            self.slots.make_whole();
        }
    }
}
