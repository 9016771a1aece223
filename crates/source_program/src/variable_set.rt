use aq_term::memory::Memory;
use std::alloc::Global;

/// A set of variables that is emptied in one step.
#[derive(Drop)]
pub struct VariableSet {
    /// For each variable the round in which it was added last, or 0.
    rounds: Vec<u64>,
    round: u64,
}

impl VariableSet {
    /// An empty set of variables below `variables`.
    pub fn new(alloc: Global, variables: usize) -> Result<VariableSet, Memory> {
        Ok(VariableSet {
            rounds: vec![in alloc; 0; variables]?,
            round: 1,
        })
    }

    /// Takes all variables out.
    pub fn clear(&mut self) {
        self.round = self.round.saturating_add(1);
    }

    pub fn has(&self, variable: u32) -> bool {
        match self.rounds.get(variable as usize) {
            Some(round) => *round == self.round,
            None => false,
        }
    }

    /// Adds a variable, and says whether it was not there.
    pub fn add(&mut self, variable: u32) -> bool {
        match self.rounds.get_mut(variable as usize) {
            Some(round) => {
                let new = *round != self.round;
                *round = self.round;
                new
            }
            None => false,
        }
    }
}
