use crate::token::Token;

/// A token with its place in the text.
#[derive(Debug, Drop)]
pub struct Placed {
    pub token: Token,
    /// Its first byte, counted from 0.
    pub at: u64,
    /// Whether nothing stands between the token before and this one.
    pub tight: bool,
    /// What it counts in the weight of a clause: 1, but `2k + 1` for codes of k characters.
    pub weight: u64,
}
