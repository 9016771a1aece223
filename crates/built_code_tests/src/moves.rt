//! No move puts a word where it stands.

use crate::compiled::Compiled;
use bam_code::line::Line;
use bam_code::place::Place;
use bam_code::source::Source;
use std::alloc::Global;
use std::test::Fail;

/// The first move that does, where there is one.
pub fn broken(alloc: Global, compiled: &Compiled) -> Result<Option<String>, Fail> {
    for (number, proc) in compiled.code.procs.as_slice().iter().enumerate() {
        if let Some(place) = proc.lines.as_slice().iter().position(is_idle) {
            return Ok(Some(format!(in alloc;
                "proc {number}: an idle move at line {place} from 0"
            )?));
        }
    }
    Ok(None)
}

fn is_idle(line: &Line) -> bool {
    match line {
        Line::Move {
            into: Place::Register(into),
            from: Source::Register(from),
        } => into == from,
        Line::Move {
            into: Place::Slot(into),
            from: Source::Slot(from),
        } => into == from,
        _ => false,
    }
}
