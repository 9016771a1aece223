use crate::named::Named;
use aq_term::memory::Memory;
use bam_code::line::Line;
use std::alloc::Global;
use std::collections::HashMap;

/// Where the intervals of registers from r64 on end: the places of the last lines that name them, counted from 0.
#[derive(Drop)]
pub struct Intervals {
    lasts: HashMap<u16, usize>,
}

impl Intervals {
    pub fn of(alloc: Global, lines: &[Line]) -> Result<Intervals, Memory> {
        let mut named = Named::new(alloc);
        let mut intervals = Intervals {
            lasts: HashMap::new(alloc),
        };
        for (at, line) in lines.iter().enumerate() {
            intervals.note(named.take(line)?.as_slice(), at)?;
        }
        Ok(intervals)
    }

    /// Notes that the line at a place names registers.
    fn note(&mut self, registers: &[u16], at: usize) -> Result<(), Memory> {
        for register in registers {
            self.lasts.insert(*register, at)?;
        }
        Ok(())
    }

    /// Whether the interval of a register ends at a place. It is so only once.
    pub fn end(&mut self, register: u16, at: usize) -> bool {
        match self.lasts.get(&register) {
            Some(last) if *last == at => self.lasts.remove(&register).is_some(),
            _ => false,
        }
    }
}
