use crate::goal::Goal;
use aq_term::args0::Args0;

/// A clause of a predicate.
#[derive(Debug, Drop)]
pub struct SourceClause {
    /// The arguments of the head, as many as the predicate has.
    pub head: Args0,
    pub body: Goal,
    /// The most arguments of the head and of a call.
    pub most_arguments: usize,
    /// Each variable of the clause is below this number.
    pub variables: u32,
    /// The number of the clause in the text, from 1.
    pub number: u64,
    /// The weight of the clause: its number of tokens, where a codes token of k characters counts as 2k + 1, and eight times that
    /// for a grammar rule.
    pub weight: u64,
}
