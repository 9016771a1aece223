//! Each instruction can be reached from its procedure's start, through lines that go on and labels that are named.

use crate::compiled::Compiled;
use crate::line_targets::{label_number, named_labels, place_of};
use bam_code::line::Line;
use std::alloc::Global;
use std::test::Fail;

/// The first instruction that cannot, where there is one.
pub fn broken(alloc: Global, compiled: &Compiled) -> Result<Option<String>, Fail> {
    for (number, proc) in compiled.code.procs.as_slice().iter().enumerate() {
        let lines = proc.lines.as_slice();
        let reached = reached(alloc, lines)?;
        if let Some(place) = unreached(lines, &reached) {
            return Ok(Some(format!(in alloc;
                "proc {number}: line {place} from 0 is not reached"
            )?));
        }
    }
    Ok(None)
}

/// The first instruction that is not among the places reached.
fn unreached(lines: &[Line], reached: &[usize]) -> Option<usize> {
    for (place, line) in lines.iter().enumerate() {
        if label_number(line).is_none() && !reached.contains(&place) {
            return Some(place);
        }
    }
    None
}

/// The places of the lines that are reached, each once. A label stands later than what names it, so one way down is enough.
fn reached(alloc: Global, lines: &[Line]) -> Result<Vec<usize>, Fail> {
    let mut reached: Vec<usize> = Vec::new(alloc);
    reached.push(0)?;
    for (place, line) in lines.iter().enumerate() {
        if reached.contains(&place) {
            note_next(alloc, lines, place, line, &mut reached)?;
        }
    }
    Ok(reached)
}

/// Notes the lines to which a line leads.
fn note_next(
    alloc: Global,
    lines: &[Line],
    place: usize,
    line: &Line,
    reached: &mut Vec<usize>,
) -> Result<(), Fail> {
    if goes_on(line) {
        reached.push(place.saturating_add(1))?;
    }
    for label in &named_labels(alloc, line)? {
        if let Some(to) = place_of(lines, *label) {
            reached.push(to)?;
        }
    }
    Ok(())
}

fn goes_on(line: &Line) -> bool {
    !matches!(
        line,
        Line::Jump(_)
            | Line::Switch { .. }
            | Line::Fail
            | Line::Exec(_)
            | Line::Return
            | Line::Raise(_)
    )
}
