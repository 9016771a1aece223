use crate::clause::put_clauses;
use crate::draft::Draft;
use crate::entry_line::put_entries;
use crate::numbers::Numbers;
use crate::plan::Plan;
use crate::query::put_query;
use aq_term::memory::Memory;
use std::alloc::Global;

/// A program and a query of one of its entries, as texts.
#[derive(Drop)]
pub struct MadeProgram {
    /// The program: its entries, and then its clauses, one a line.
    pub program: String,
    /// The query. Its arguments are of the modes of its predicate's entry.
    pub query: String,
}

/// The program of a seed, of two to six predicates. Each seed has one. The program is accepted, and so is its query. Nearly all
/// runs end; those of a few programs go on until a limit is reached, and those of a few put a variable into itself.
pub fn made(alloc: Global, seed: u32) -> Result<MadeProgram, Memory> {
    let mut numbers = Numbers::of(seed);
    let plans = plans(alloc, &mut numbers)?;
    let mut draft = Draft::new(alloc, numbers);
    put_entries(&mut draft, &plans)?;
    for plan in &plans {
        put_clauses(&mut draft, &plans, *plan)?;
    }
    let (program, numbers) = draft.into_parts();
    let mut draft = Draft::new(alloc, numbers);
    put_query(&mut draft, &plans)?;
    let (query, _numbers) = draft.into_parts();
    Ok(MadeProgram { program, query })
}

/// What the program's predicates are to be.
fn plans(alloc: Global, numbers: &mut Numbers) -> Result<Vec<Plan>, Memory> {
    let mut plans = Vec::new(alloc);
    let more = numbers.below(5);
    for number in 0..more.saturating_add(2) {
        plans.push(Plan::next(numbers, number))?;
    }
    Ok(plans)
}
