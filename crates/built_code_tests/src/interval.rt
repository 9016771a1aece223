use crate::named_registers::named_registers;
use bam_code::line::Line;
use std::alloc::Global;
use std::test::Fail;

/// The least number of a register that is no argument's.
const FIRST_OWN: u16 = 64;

/// The lines of a procedure from the first that names a register to the last.
#[derive(Clone, Copy)]
pub struct Interval {
    pub register: u16,
    first: usize,
    last: usize,
}

impl Interval {
    /// Whether a line is one of them.
    pub fn holds(self, line: usize) -> bool {
        self.first <= line && line <= self.last
    }
}

/// The intervals of the registers from 64 on. Each push of a structure names the structure's register too.
pub fn intervals(alloc: Global, lines: &[Line]) -> Result<Vec<Interval>, Fail> {
    let mut intervals = Vec::new(alloc);
    let mut structure = 0;
    let mut due: u8 = 0;
    for (place, line) in lines.iter().enumerate() {
        if due > 0 {
            note(structure, place, &mut intervals)?;
            due -= 1;
        }
        match line {
            Line::Structure { register, functor } => {
                structure = *register;
                due = functor.arity;
            }
            Line::ListCell { register } => {
                structure = *register;
                due = 2;
            }
            _ => {}
        }
        for register in &named_registers(alloc, line)? {
            note(*register, place, &mut intervals)?;
        }
    }
    Ok(intervals)
}

/// Notes that a line names a register.
fn note(register: u16, line: usize, intervals: &mut Vec<Interval>) -> Result<(), Fail> {
    if register < FIRST_OWN {
        return Ok(());
    }
    for interval in intervals.as_mut_slice() {
        if interval.register == register {
            interval.last = line;
            return Ok(());
        }
    }
    intervals.push(Interval {
        register,
        first: line,
        last: line,
    })?;
    Ok(())
}
