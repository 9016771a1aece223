use crate::tokens::Tokens;

/// The tokens of one clause, its end among them.
#[derive(Debug, Drop)]
pub struct Clause {
    pub tokens: Tokens,
    /// The place after the clause's end, in bytes from 0.
    pub end: usize,
}
