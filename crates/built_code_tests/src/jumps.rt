//! No jump leads to the instruction behind it, or to a jump.

use crate::compiled::Compiled;
use crate::line_targets::{instruction_from, place_of};
use bam_code::line::Line;
use bam_code::target::Target;
use std::alloc::Global;
use std::test::Fail;

/// The first jump that does, where there is one.
pub fn broken(alloc: Global, compiled: &Compiled) -> Result<Option<String>, Fail> {
    for (number, proc) in compiled.code.procs.as_slice().iter().enumerate() {
        let lines = proc.lines.as_slice();
        if let Some(place) = lines
            .iter()
            .enumerate()
            .position(|(place, line)| is_idle(lines, place, line))
        {
            return Ok(Some(format!(in alloc;
                "proc {number}: an idle jump at line {place} from 0"
            )?));
        }
    }
    Ok(None)
}

/// Whether a line is a jump to what follows or to a jump.
fn is_idle(lines: &[Line], place: usize, line: &Line) -> bool {
    let Line::Jump(Target::Label(label)) = line else {
        return false;
    };
    let target = place_of(lines, *label).and_then(|to| instruction_from(lines, to));
    let next = instruction_from(lines, place.saturating_add(1));
    match target {
        Some(to) => Some(to) == next || matches!(lines.get(to), Some(Line::Jump(_))),
        None => false,
    }
}
