ghost use Rattle.std.specs.Prelude.{◌≡◌};
ghost use Rattle.bam_types.specs.LabelFit.{
  branch_known,
  branch_kept,
  branch_at,
  has,
  has_known,
  is_marked,
  has_all,
  fits,
  is_register,
  same_frame,
};
ghost use Rattle.bam_types.specs.Labels.{label_seen};

use crate::argument::Argument;
use crate::held::Held;
use crate::knowledge::{both_known, follows};
use crate::labels::LabelLine;
use crate::place_types::{place_below, place_with};
use crate::state::State;
use bam_code::item::Item;
use bam_code::known::Known;
use bam_code::place::Place;
use bam_code::place_type::PlaceType;

/// What a branch of a switch adds to the state: the type of the register that was tested, and what is then known of its
/// term.
#[derive(Clone, Copy, Debug)]
pub struct Seen {
    pub register: u16,
    pub holds: PlaceType,
    pub identity: u32,
    pub known: Known,
}

/// A state as it is at a branch.
#[derive(Clone, Copy)]
pub struct Branched<'a> {
    pub state: &'a State,
    /// What the branch adds.
    pub seen: Option<Seen>,
}

impl Branched<'_> {
    /// What is known of an identity's term.
    fn known(&self, identity: u32) -> Known
        ensures { result ≡ branch_known self.now.state.now self.now.seen identity }
    {
        let known = self.state.identities.known(identity);
        match self.seen {
            Some(seen) => {
                if seen.identity == identity {
                    both_known(known, seen.known)
                } else {
                    known
                }
            }
            None => known,
        }
    }

    /// What a place holds.
    fn at(&self, place: Place) -> Option<Held>
        ensures { result ≡ branch_at self.now.state.now self.now.seen place }
    {
        let held = self.kept(place)?;
        Some(Held {
            holds: place_with(held.holds, self.known(held.identity)),
            identity: held.identity,
        })
    }

    /// What is kept of a place, without what is known of its identity.
    fn kept(&self, place: Place) -> Option<Held>
        ensures { result ≡ branch_kept self.now.state.now self.now.seen place }
    {
        match self.seen {
            Some(seen) => {
                if is_register(place, seen.register) {
                    Some(Held {
                        holds: seen.holds,
                        identity: seen.identity,
                    })
                } else {
                    self.state.kept(place)
                }
            }
            None => self.state.kept(place),
        }
    }

    /// Whether an item of a label holds.
    fn has(&self, item: &Item) -> bool
        ensures { result ≡ has self.now.state.now self.now.seen item.now }
    {
        match item {
            Item::Argument { argument, known } => self.has_known(*argument as usize, *known),
            Item::Place { place, holds, mark } => match self.at(*place) {
                Some(held) => place_below(held.holds, *holds) && self.is_marked(held, *mark),
                None => false,
            },
        }
    }

    /// Whether so much is known of an argument's term.
    fn has_known(&self, argument: usize, known: Known) -> bool
        ensures { result ≡ has_known self.now.state.now self.now.seen argument known }
    {
        match self.state.arguments.get(argument) {
            Some(Argument::Term(identity)) => follows(self.known(identity), known),
            _ => false,
        }
    }

    /// Whether a place has the identity of the argument that marks it.
    fn is_marked(&self, held: Held, mark: Option<u8>) -> bool
        ensures { result ≡ is_marked self.now.state.now held mark }
    {
        match mark {
            Some(argument) => match self.state.identity_of(argument as usize) {
                Some(identity) => identity == held.identity,
                None => false,
            },
            None => true,
        }
    }

    /// Whether all items of a label hold.
    pub fn has_all(&self, items: &[Item]) -> bool
        ensures { result ≡ has_all self.now.state.now self.now.seen items.now }
    {
        items.iter().all(|item| self.has(item))
    }

    /// Whether the state is below that of a label: the frame is the same, no push is due, all items hold, and no slot is set
    /// but those that are listed. What is in other registers is forgotten.
    pub fn fits(&self, label: LabelLine) -> bool
        ensures { result ≡ fits self.now.state.now self.now.seen (label_seen label.entry) }
    {
        same_frame(self.state.frame, label.frame)
            && self.state.opening.is_none()
            && self.has_all(label.items)
            && self.state.slots.count() == label.slots()
    }
}

fn is_register(place: Place, register: u16) -> bool
    ensures { result ≡ is_register place register }
{
    match place {
        Place::Register(number) => number == register,
        Place::Slot(_) => false,
    }
}

fn same_frame(left: Option<u16>, right: Option<u16>) -> bool
    ensures { result ≡ same_frame left right }
{
    match (left, right) {
        (Some(left), Some(right)) => left == right,
        (None, None) => true,
        _ => false,
    }
}
