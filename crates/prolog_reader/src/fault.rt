ghost use Rattle.std.specs.Prelude.{◌≡◌};
ghost use Rattle.prolog_reader.specs.declared.fault.ReadFault.TheVariants as fault;

use aq_term::memory::Memory;
use std::alloc::{AllocError, AllocFailed};
use thiserror::Error;

/// Why tokens have no reading.
#[derive(Clone, Copy, Debug, PartialEq, Eq, Error)]
pub enum ReadFault {
    /// More than 4,096 brackets are open at a token, or the term is deeper than 4,096.
    #[error("too deep")]
    Depth,
    /// The tokens are no term.
    #[error("no term")]
    Syntax,
    /// An integer is outside -9223372036854775808..9223372036854775807.
    #[error("an integer out of range")]
    IntRange,
    /// A compound has more than 255 arguments.
    #[error("too many arguments")]
    ArityLimit,
    #[error("out of memory")]
    Memory,
}

impl From<Memory> for ReadFault {
    ghost from_gives = { λ _ e. e ≡ fault.Memory };

    fn from(_error: Memory) -> ReadFault {
        ReadFault::Memory
    }
}

impl From<AllocError> for ReadFault {
    ghost from_gives = { λ _ e. e ≡ fault.Memory };

    fn from(_error: AllocError) -> ReadFault {
        ReadFault::Memory
    }
}

impl<T: Drop> From<AllocFailed<T>> for ReadFault {
    ghost from_gives = { λ _ e. e ≡ fault.Memory };

    fn from(_failed: AllocFailed<T>) -> ReadFault {
        ReadFault::Memory
    }
}
