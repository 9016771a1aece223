//! A procedure has no more `try` than there are ways to call its predicate that keep a choice. One of which each call has at most
//! one clause whose head fits has none.

use crate::compiled::Compiled;
use crate::selection::most_try;
use bam_code::line::Line;
use std::alloc::Global;
use std::test::Fail;

/// The first procedure that has more, where there is one.
pub fn broken(alloc: Global, compiled: &Compiled) -> Result<Option<String>, Fail> {
    for (number, proc) in compiled.code.procs.as_slice().iter().enumerate() {
        let name = proc.signature.name;
        let (Some(predicate), Some(facts)) = (compiled.predicate(name), compiled.facts.find(&name))
        else {
            return Err("a procedure of no predicate".into());
        };
        let most = most_try(alloc, predicate, &facts.call)?;
        let found = count(proc.lines.as_slice());
        if found > most {
            return Ok(Some(format!(in alloc; "proc {number}: {found} try, at most {most}")?));
        }
    }
    Ok(None)
}

fn count(lines: &[Line]) -> u64 {
    lines
        .iter()
        .filter(|line| matches!(line, Line::Try { .. }))
        .count() as u64
}
