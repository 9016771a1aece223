ghost use Rattle.std.specs.Prelude.{◌≡◌};
ghost use Rattle.dcg_rules.specs.declared.fault.DcgFault.TheVariants as fault;

use aq_term::memory::Memory;
use std::alloc::{AllocError, AllocFailed};
use thiserror::Error;

/// Why a grammar rule has no clause.
#[derive(Clone, Copy, Debug, PartialEq, Eq, Error)]
pub enum DcgFault {
    /// The head is a variable, an integer, a conjunction, or has more than 253 arguments.
    #[error("head")]
    Head,
    /// A part of the body is no body of a grammar rule, or a nonterminal has more than 253 arguments.
    #[error("body")]
    Body,
    #[error("out of memory")]
    Memory,
}

impl From<Memory> for DcgFault {
    ghost from_gives = { λ _ e. e ≡ fault.Memory };

    fn from(_error: Memory) -> DcgFault {
        DcgFault::Memory
    }
}

impl From<AllocError> for DcgFault {
    ghost from_gives = { λ _ e. e ≡ fault.Memory };

    fn from(_error: AllocError) -> DcgFault {
        DcgFault::Memory
    }
}

impl<T: Drop> From<AllocFailed<T>> for DcgFault {
    ghost from_gives = { λ _ e. e ≡ fault.Memory };

    fn from(_failed: AllocFailed<T>) -> DcgFault {
        DcgFault::Memory
    }
}
