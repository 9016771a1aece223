//! A procedure names no more registers from 64 on than their intervals overlap at one line, and none past 1023.

use crate::compiled::Compiled;
use crate::interval::{Interval, intervals};
use std::alloc::Global;
use std::test::Fail;

/// The greatest number of a register.
const LAST: u16 = 1023;

/// The first procedure that names more, where there is one.
pub fn broken(alloc: Global, compiled: &Compiled) -> Result<Option<String>, Fail> {
    for (number, proc) in compiled.code.procs.as_slice().iter().enumerate() {
        let intervals = intervals(alloc, proc.lines.as_slice())?;
        let named = intervals.len();
        let most = overlap(&intervals, proc.lines.len());
        if named > most {
            return Ok(Some(format!(in alloc;
                "proc {number}: {named} registers from 64 on, at most {most}"
            )?));
        }
        if intervals.iter().any(|interval| interval.register > LAST) {
            return Ok(Some(format!(in alloc; "proc {number}: a register past {LAST}")?));
        }
    }
    Ok(None)
}

/// The greatest number of intervals that hold one line.
fn overlap(intervals: &[Interval], lines: usize) -> usize {
    let mut most = 0;
    for line in 0..lines {
        most = most.max(
            intervals
                .iter()
                .filter(|interval| interval.holds(line))
                .count(),
        );
    }
    most
}
