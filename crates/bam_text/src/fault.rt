ghost use Rattle.std.specs.Prelude.{◌≡◌};
ghost use Rattle.bam_text.specs.declared.fault.LineFault.TheVariants as line_fault;
ghost use Rattle.bam_text.specs.declared.fault.TextFault.TheVariants as fault;

use aq_term::memory::Memory;
use std::alloc::{AllocError, AllocFailed};
use thiserror::Error;

/// Why bytes are no BAM text.
#[derive(Clone, Copy, Debug, PartialEq, Eq, Error)]
pub enum TextFault {
    /// The first line, from 1, that stands in no text whose lines before it are the same. It is one past the last where
    /// a line is missing.
    #[error("line {0}")]
    Line(u64),
    #[error("out of memory")]
    Memory,
}

/// Why a line is not read.
#[derive(Clone, Copy, Debug, PartialEq, Eq)]
pub enum LineFault {
    /// It stands in no text whose lines before it are the same.
    Form,
    Memory,
}

impl From<Memory> for LineFault {
    ghost from_gives = { λ _ e. e ≡ line_fault.Memory };

    fn from(_error: Memory) -> LineFault {
        LineFault::Memory
    }
}

impl From<AllocError> for LineFault {
    ghost from_gives = { λ _ e. e ≡ line_fault.Memory };

    fn from(_error: AllocError) -> LineFault {
        LineFault::Memory
    }
}

impl<T: Drop> From<AllocFailed<T>> for LineFault {
    ghost from_gives = { λ _ e. e ≡ line_fault.Memory };

    fn from(_failed: AllocFailed<T>) -> LineFault {
        LineFault::Memory
    }
}
