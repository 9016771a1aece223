use crate::value::Compound;
use source_program::source_clause::SourceClause;

/// A call and the clauses that are still to be tried for it.
#[derive(Clone, Copy)]
pub struct Attempt<'p> {
    pub call: Compound,
    pub clauses: &'p [SourceClause],
}
