use crate::end::End;

/// How a run to the end came out.
#[derive(Clone, Copy, Debug, PartialEq, Eq)]
pub struct RunEnd {
    /// What the run came to, which is no solution.
    pub end: End,
    /// Whether an answer was written whole.
    pub solved: bool,
}
