use crate::flow::{Flow, flow_after};
use crate::registers::{read_registers, set_register};
use aq_term::memory::Memory;
use bam_code::line::Line;
use std::alloc::Global;
use std::collections::HashSet;

/// What is read behind a place, found from the last line to the first.
#[derive(Drop)]
pub struct Behind {
    alloc: Global,
    /// Whether the lines behind leave the procedure before they go to a label.
    leaves: bool,
    /// The registers that are read behind before they are set.
    read: HashSet<u16>,
}

impl Behind {
    pub fn new(alloc: Global) -> Behind {
        Behind {
            alloc,
            leaves: false,
            read: HashSet::new(alloc),
        }
    }

    /// Whether the word of a register from r64 on may be needed behind.
    pub fn needs(&self, register: u16) -> bool {
        !self.leaves || self.read.contains(&register)
    }

    /// Goes past a line.
    pub fn take(&mut self, line: &Line) -> Result<(), Memory> {
        match flow_after(line) {
            Flow::GoesOn => self.pass(line),
            Flow::Leaves => {
                self.begin(true);
                self.pass(line)
            }
            Flow::Branches => {
                self.begin(false);
                Ok(())
            }
        }
    }

    fn begin(&mut self, leaves: bool) {
        self.leaves = leaves;
        self.read = HashSet::new(self.alloc);
    }

    fn pass(&mut self, line: &Line) -> Result<(), Memory> {
        if let Some(register) = set_register(line) {
            self.read.remove(&register);
        }
        let (first, second) = read_registers(line);
        self.note(first)?;
        self.note(second)
    }

    fn note(&mut self, register: Option<u16>) -> Result<(), Memory> {
        if let Some(register) = register {
            self.read.insert(register)?;
        }
        Ok(())
    }
}
