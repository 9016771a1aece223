use crate::given::{Given, Stand};
use aq_term::memory::Memory;
use aq_term::proc_name::ProcName;
use bam_code::line::Line;
use bam_code::place::Place as CodePlace;
use bam_code::source::Source;
use flow_equations::fact_list::FactList;
use std::alloc::Global;
use type_lattice::fact::Fact;
use unify_special::draft::Draft;
use unify_special::fact_types::hole_type;
use unify_special::operand::{move_to, operand};
use unify_special::picture::Picture;
use unify_special::place::Place;
use unify_special::place_list::PlaceList;

/// How many slots there are, where there is a frame.
fn frame_of(given: &[Given]) -> Option<u16> {
    let mut slots: u16 = 0;
    for one in given {
        if one.needs_slot() {
            slots = slots.saturating_add(1);
        }
    }
    if slots == 0 { None } else { Some(slots) }
}

/// The lines before the goal, and the picture that they make.
#[derive(Drop)]
pub struct Stage {
    pub picture: Picture,
    pub draft: Draft,
    slot: u8,
    argument: u16,
}

impl Stage {
    fn new(alloc: Global, given: &[Given]) -> Stage {
        Stage {
            picture: Picture {
                facts: FactList::new(alloc),
                places: PlaceList::new(alloc),
                frame: frame_of(given),
                depth: Place::Nowhere,
            },
            draft: Draft::new(alloc),
            slot: 0,
            argument: 0,
        }
    }

    fn take_slot(&mut self) -> u8 {
        let slot = self.slot;
        self.slot = slot.saturating_add(1);
        slot
    }

    fn take_argument(&mut self) -> u16 {
        let argument = self.argument;
        self.argument = argument.saturating_add(1);
        argument
    }

    fn add(&mut self, fact: Fact, place: Place) -> Result<(), Memory> {
        self.picture.facts.push(fact)?;
        self.picture.places.push(place)
    }

    /// Moves an argument's register to a slot of its own.
    fn save(&mut self, argument: u16) -> Result<u8, Memory> {
        let slot = self.take_slot();
        self.draft.line(Line::Move {
            into: CodePlace::Slot(slot),
            from: Source::Register(argument),
        })?;
        Ok(slot)
    }

    /// The place of a variable with the value or the hole of an argument.
    fn place_of(&mut self, one: &Given, argument: u16) -> Result<Place, Memory> {
        match one.stand {
            Stand::Head | Stand::Local | Stand::Hole | Stand::Barrier => {
                Ok(Place::Register(argument))
            }
            Stand::HeadSlot | Stand::LocalSlot | Stand::HoleSlot | Stand::BarrierSlot => {
                Ok(Place::Slot(self.save(argument)?))
            }
            Stand::Nowhere | Stand::Boxed => Ok(Place::Nowhere),
        }
    }

    /// The variables of the head. One whose value another has is dead.
    fn add_heads(&mut self, given: &[Given]) -> Result<(), Memory> {
        for one in given {
            if one.is_head() {
                let argument = self.take_argument();
                let place = self.place_of(one, argument)?;
                self.add(one.fact, place)?;
            } else if one.is_copy() {
                let _argument = self.take_argument();
                self.add(one.fact, Place::Nowhere)?;
            }
        }
        Ok(())
    }

    /// The other variables.
    fn add_others(&mut self, given: &[Given]) -> Result<(), Memory> {
        let mut argument = 0;
        for one in given {
            if !one.is_head() {
                let place = self.place_of(one, argument)?;
                self.add(one.fact, place)?;
            }
            if one.is_head() || one.is_copy() {
                argument = argument.saturating_add(1);
            }
        }
        Ok(())
    }

    /// Makes the holes of boxed variables, and calls what fills them.
    fn fill_boxes(&mut self, given: &[Given], name: ProcName) -> Result<(), Memory> {
        let mut register = 0u16;
        let mut variable = u32::from(self.argument);
        for one in given {
            if one.stand == Stand::Boxed {
                self.draft.line(Line::Hole {
                    register,
                    holds: hole_type(one.fact),
                })?;
                let slot = self.save(register)?;
                self.picture.places.set(variable, Place::Boxed(slot));
                register = register.saturating_add(1);
            }
            if !one.is_head() {
                variable = variable.saturating_add(1);
            }
        }
        self.draft.line(Line::Call(name))
    }

    /// The lines up to the goal, behind which the variables stand as they are given. The callee fills the boxes.
    pub fn of(alloc: Global, given: &[Given], callee: ProcName) -> Result<Stage, Memory> {
        let mut stage = Stage::new(alloc, given);
        if let Some(slots) = stage.picture.frame {
            stage.draft.line(Line::Allocate(slots))?;
        }
        stage.add_heads(given)?;
        stage.add_others(given)?;
        if stage.picture.frame.is_some() {
            stage.fill_boxes(given, callee)?;
        }
        Ok(stage)
    }

    /// Moves to the first registers what stands in the places of these variables.
    pub fn pass(&mut self, variables: &[u32]) -> Result<(), Memory> {
        let mut register = 0u16;
        for variable in variables {
            let from = operand(&self.picture, *variable);
            self.draft.line(move_to(register, from))?;
            register = register.saturating_add(1);
        }
        Ok(())
    }

    /// Gives the frame up, where there is one.
    pub fn leave(&mut self) -> Result<(), Memory> {
        if self.picture.frame.is_some() {
            self.draft.line(Line::Deallocate)?;
        }
        Ok(())
    }
}
