use crate::end::End;
use crate::output::Output;

/// What an instruction came to before anything is written.
#[derive(Clone, Copy, Debug, PartialEq, Eq)]
pub enum Did {
    /// The run goes on.
    Went,
    /// A solution, or the run is over.
    Ended(End),
    /// The run goes on when this is written.
    Writes(Output),
}
