ghost use Rattle.std.specs.Prelude.{◌≡◌};
ghost use Rattle.prolog_tokens.specs.declared.fault.TokenFault.TheVariants as fault;

use aq_term::memory::Memory;
use std::alloc::AllocError;
use thiserror::Error;

/// Why text has no tokens.
#[derive(Clone, Copy, Debug, PartialEq, Eq, Error)]
pub enum TokenFault {
    /// No token, end or layout begins at this byte, counted from 0. It is the text's length where
    /// the text stops before a clause's end.
    #[error("no token at byte {0}")]
    At(u64),
    #[error("out of memory")]
    Memory,
}

impl From<Memory> for TokenFault {
    ghost from_gives = { λ _ e. e ≡ fault.Memory };

    fn from(_error: Memory) -> TokenFault {
        TokenFault::Memory
    }
}

impl From<AllocError> for TokenFault {
    ghost from_gives = { λ _ e. e ≡ fault.Memory };

    fn from(_error: AllocError) -> TokenFault {
        TokenFault::Memory
    }
}
