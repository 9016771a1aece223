use crate::cells::Cells;
use aq_term::args0::Args0;
use aq_term::names::Names;

/// A query that an entry takes.
#[derive(Debug, Drop)]
pub struct Query {
    /// The place of its entry among the entries, from 0.
    pub entry: u64,
    pub args: Args0,
    /// The name of each variable, at its number; `_` for each anonymous one.
    pub names: Names,
    /// The place of each variable's own cell, at its number, counted in words from the query's first word on the heap.
    pub cells: Cells,
    /// The number of tokens, where a codes token of k characters counts as 2k + 1.
    pub weight: u64,
}
