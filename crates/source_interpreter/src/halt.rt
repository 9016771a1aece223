use aq_term::memory::Memory;
use std::alloc::{AllocError, AllocFailed};
use thiserror::Error;

/// Why a step is not done.
#[derive(Clone, Copy, Debug, PartialEq, Eq, Error)]
pub enum Halt {
    #[error("out of memory")]
    Memory,
    /// A walk over terms took more visits than one may take, or a term is too deep to be written.
    #[error("too many visits")]
    Stopped,
    /// The state is none that a run comes to.
    #[error("no state of a run")]
    Lost,
}

impl From<Memory> for Halt {
    fn from(_error: Memory) -> Halt {
        Halt::Memory
    }
}

impl From<AllocError> for Halt {
    fn from(_error: AllocError) -> Halt {
        Halt::Memory
    }
}

impl<T: Drop> From<AllocFailed<T>> for Halt {
    fn from(_failed: AllocFailed<T>) -> Halt {
        Halt::Memory
    }
}
