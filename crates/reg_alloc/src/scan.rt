use crate::free_numbers::FreeNumbers;
use crate::intervals::Intervals;
use crate::named::Named;
use crate::renaming::Renaming;
use aq_term::memory::Memory;
use bam_code::line::Line;
use std::alloc::Global;

/// The new numbers of the registers of a procedure: each gets, at the first line of its interval, the least number from r64 on that
/// no interval holds there.
pub fn renaming(alloc: Global, lines: &[Line]) -> Result<Renaming, Memory> {
    let mut intervals = Intervals::of(alloc, lines)?;
    let mut named = Named::new(alloc);
    let mut scan = Scan {
        renaming: Renaming::new(alloc),
        free: FreeNumbers::new(alloc),
    };
    for (at, line) in lines.iter().enumerate() {
        let registers = named.take(line)?;
        scan.begin(registers.as_slice())?;
        scan.end(registers.as_slice(), at, &mut intervals)?;
    }
    Ok(scan.into_renaming())
}

/// The scan of the lines, from the first to the last.
#[derive(Drop)]
struct Scan {
    renaming: Renaming,
    free: FreeNumbers,
}

impl Scan {
    fn into_renaming(self) -> Renaming {
        let Scan { renaming, free: _ } = self;
        renaming
    }

    /// Gives those registers a number that have none.
    fn begin(&mut self, registers: &[u16]) -> Result<(), Memory> {
        for register in registers {
            if !self.renaming.has(*register) {
                self.renaming.give(*register, self.free.take())?;
            }
        }
        Ok(())
    }

    /// Gives the numbers back of those registers whose interval ends at a place.
    fn end(
        &mut self,
        registers: &[u16],
        at: usize,
        intervals: &mut Intervals,
    ) -> Result<(), Memory> {
        for register in registers {
            if intervals.end(*register, at) {
                self.give_back(*register)?;
            }
        }
        Ok(())
    }

    fn give_back(&mut self, register: u16) -> Result<(), Memory> {
        match self.renaming.above(register) {
            Some(number) => self.free.give_back(number),
            None => Ok(()),
        }
    }
}
