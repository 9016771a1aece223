ghost use Rattle.std.specs.Prelude.{◌≡◌};
ghost use Rattle.answer_io.specs.declared.query_fault.QueryFault.TheVariants as fault;

use aq_term::memory::Memory;
use thiserror::Error;

/// Why a query is not taken.
#[derive(Clone, Copy, Debug, PartialEq, Eq, Error)]
pub enum QueryFault {
    /// It has more than 16,777,216 bytes, or it is no term.
    #[error("query syntax")]
    QuerySyntax,
    /// It names no predicate with an entry.
    #[error("query not entry")]
    NotEntry,
    /// The argument of this number, from 1, is the first that its mode refuses.
    #[error("query mode {0}")]
    QueryMode(u8),
    #[error("out of memory")]
    Memory,
}

impl From<Memory> for QueryFault {
    ghost from_gives = { λ _ e. e ≡ fault.Memory };

    fn from(_error: Memory) -> QueryFault {
        QueryFault::Memory
    }
}
