use crate::names::Names;
use crate::term::Term;

/// A clause or a query as it was read.
#[derive(Debug, Drop)]
pub struct ReadTerm {
    pub term: Term,
    /// The name of each variable, at its number; `_` for each anonymous one.
    pub names: Names,
    /// The number of tokens, where a codes token of k characters counts as 2k + 1.
    pub weight: u64,
}
