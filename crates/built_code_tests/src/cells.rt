//! A procedure has no more `fresh` and `push_new` than the facts of its clauses want.

use crate::cell_count::most_cells;
use crate::compiled::Compiled;
use crate::taken_clause::take_clause;
use aq_term::proc_name::ProcName;
use bam_code::line::Line;
use std::alloc::Global;
use std::test::Fail;

/// The first procedure that has more, where there is one.
pub fn broken(alloc: Global, compiled: &Compiled) -> Result<Option<String>, Fail> {
    for (number, proc) in compiled.code.procs.as_slice().iter().enumerate() {
        let most = most(alloc, compiled, proc.signature.name)?;
        let found = count(proc.lines.as_slice());
        if found > most {
            return Ok(Some(format!(in alloc;
                "proc {number}: {found} fresh and push_new, at most {most}"
            )?));
        }
    }
    Ok(None)
}

/// The sum over the clauses of a predicate.
fn most(alloc: Global, compiled: &Compiled, name: ProcName) -> Result<u64, Fail> {
    let (Some(predicate), Some(facts)) = (compiled.predicate(name), compiled.facts.find(&name))
    else {
        return Err("a procedure of no predicate".into());
    };
    let mut most: u64 = 0;
    for clause in predicate.clauses.as_slice() {
        let taken = take_clause(alloc, predicate, clause, &facts.call, &compiled.facts)?;
        most = most.saturating_add(most_cells(
            alloc,
            clause,
            &taken,
            &facts.call,
            &compiled.facts,
        )?);
    }
    Ok(most)
}

fn count(lines: &[Line]) -> u64 {
    lines
        .iter()
        .filter(|line| matches!(line, Line::Fresh { .. } | Line::PushNew { .. }))
        .count() as u64
}
