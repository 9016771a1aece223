/// What comes behind a goal.
#[derive(Clone, Copy, Debug, PartialEq, Eq)]
pub enum Progress {
    /// The goal may succeed, and the next one is taken.
    GoesOn,
    /// The goal does not succeed as far as is known, and nothing behind it is taken.
    Ends,
}
