use crate::label_names::LabelNames;
use crate::line_labels::{any_label, plain_label};
use aq_term::memory::Memory;
use bam_code::line::Line;
use std::alloc::Global;
use std::collections::HashMap;

/// The numbers that the labels of a procedure get when its lines are gone through from the last to the first: labels side by side
/// get one number, and all others numbers of their own, from 0.
#[derive(Drop)]
pub struct NewNumbers {
    numbers: HashMap<u32, u32>,
    count: u32,
}

impl NewNumbers {
    pub fn new(alloc: Global) -> NewNumbers {
        NewNumbers {
            numbers: HashMap::new(alloc),
            count: 0,
        }
    }

    /// How many numbers were given.
    pub fn count(&self) -> u32 {
        self.count
    }

    /// Numbers the label that a line is, with the number that the label directly behind the line has been given.
    pub fn note(&mut self, line: &Line, behind: Option<u32>) -> Result<(), Memory> {
        let Some(number) = any_label(line) else {
            return Ok(());
        };
        let new = match (plain_label(line), behind) {
            (Some(_), Some(behind)) => behind,
            _ => self.next(),
        };
        self.numbers.insert(number, new)?;
        Ok(())
    }

    fn next(&mut self) -> u32 {
        let number = self.count;
        self.count = number.saturating_add(1);
        number
    }
}

impl LabelNames for NewNumbers {
    ghost use Rattle.bam_peephole.specs.NewNumbers.{new_number};

    ghost name_of = { λ names number. new_number names number };

    /// A number that no label was given is replaced by the greatest one.
    fn name(&self, number: u32) -> u32 {
        match self.numbers.get(&number) {
            Some(new) => *new,
            None => u32::MAX,
        }
    }
}
