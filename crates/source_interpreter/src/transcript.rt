use crate::ending::Ending;

/// What a run wrote, and how it ended.
#[derive(Debug, Drop)]
pub struct Transcript {
    /// The bytes with the line of the ending behind them where it is `Exhausted` or `Raised`, and without one else.
    pub bytes: Vec<u8>,
    pub ending: Ending,
}
