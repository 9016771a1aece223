use crate::source_clauses::SourceClauses;
use aq_term::atom::Atom;

/// A predicate: the clauses whose heads have this name and this many arguments, in the order of the text.
#[derive(Debug, Drop)]
pub struct Predicate {
    pub name: Atom,
    pub arity: u8,
    pub clauses: SourceClauses,
}
