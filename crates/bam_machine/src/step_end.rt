use crate::end::End;

/// What one instruction came to.
#[derive(Clone, Copy, Debug, PartialEq, Eq)]
pub enum StepEnd {
    /// The run goes on.
    Went,
    /// A solution, or the run is over.
    Ended(End),
}
