use crate::predicates::Predicates;
use aq_term::entries::Entries;

/// A program that keeps the forms and the limits of the language.
#[derive(Debug, Drop)]
pub struct Program {
    /// The predicates in the order of their first clauses. They differ in name or arity, and each has a clause.
    pub predicates: Predicates,
    /// The entries in the order of the text. Each names one of the predicates, has one mode for each argument, and no two name
    /// one predicate.
    pub entries: Entries,
}
