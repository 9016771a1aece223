use crate::line_registers::note_registers;
use crate::opened::Opened;
use crate::renaming::FIRST;
use aq_term::memory::Memory;
use bam_code::line::Line;
use std::alloc::Global;

/// The registers from r64 on that lines name, found from the first line to the last.
#[derive(Drop)]
pub struct Named {
    alloc: Global,
    opened: Opened,
}

impl Named {
    pub fn new(alloc: Global) -> Named {
        Named {
            alloc,
            opened: Opened::nothing(),
        }
    }

    /// Goes past a line, and gives the registers from r64 on that it names, each as often as it is named. A push names the register of
    /// the structure or list cell too.
    pub fn take(&mut self, line: &Line) -> Result<Vec<u16>, Memory> {
        let mut named = Vec::new(self.alloc);
        note_registers(line, &mut named)?;
        if let Some(register) = self.opened.take(line) {
            named.push(register)?;
        }
        named.retain(|register| *register >= FIRST);
        Ok(named)
    }
}
