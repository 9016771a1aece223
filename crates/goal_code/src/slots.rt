use crate::prepared::Prepared;
use aq_term::memory::Memory;
use flow_equations::occurrences::goal_variables;
use std::alloc::Global;

/// The slots of a clause's frame as they are counted.
#[derive(Drop)]
struct SlotCount<'a> {
    clause: &'a Prepared,
    /// The variables that have been in a goal, by their numbers.
    seen: Vec<bool>,
    /// Those that were first in a goal behind the last call.
    new: Vec<u32>,
    count: u16,
}

/// How many slots the frame of a clause needs: one for each variable that is in the head or in a goal up to a call that returns, and is
/// wanted behind it, and one for the depth where that is wanted behind such a call. A frame has at least one. The head has a number of
/// variables.
pub fn slots_of(alloc: Global, clause: &Prepared, head: u32) -> Result<u16, Memory> {
    let mut slots = SlotCount {
        clause,
        seen: vec![in alloc; false; clause.variables as usize]?,
        new: Vec::new(alloc),
        count: 0,
    };
    for variable in 0..head {
        slots.note(variable)?;
    }
    for (number, goal) in clause.goals.as_slice().iter().enumerate() {
        slots.note_all(goal_variables(alloc, goal)?.as_slice())?;
        if clause.returns_from(number, goal) {
            slots.keep(alloc, number.saturating_add(1));
        }
    }
    Ok(slots.count.saturating_add(depth_slot(clause)).max(1))
}

/// 1 where the depth is wanted behind a call that returns, and else 0.
fn depth_slot(clause: &Prepared) -> u16 {
    for (number, goal) in clause.goals.as_slice().iter().enumerate() {
        if clause.returns_from(number, goal) {
            return u16::from(clause.liveness.wants_depth(number.saturating_add(1)));
        }
    }
    0
}

impl SlotCount<'_> {
    fn note_all(&mut self, variables: &[u32]) -> Result<(), Memory> {
        for variable in variables {
            self.note(*variable)?;
        }
        Ok(())
    }

    fn note(&mut self, variable: u32) -> Result<(), Memory> {
        if let Some(seen) = self.seen.get_mut(variable as usize) {
            if !*seen {
                *seen = true;
                self.new.push(variable)?;
            }
        }
        Ok(())
    }

    /// Counts the new variables that the goal of this number or a later one has, behind a call.
    fn keep(&mut self, alloc: Global, from: usize) {
        for variable in self.new.as_slice() {
            if self.clause.liveness.wants(*variable, from) {
                self.count = self.count.saturating_add(1);
            }
        }
        self.new = Vec::new(alloc);
    }
}
