ghost use Rattle.part_link.specs.declared.join_fault.JoinFault.TheVariants as fault;
ghost use Rattle.std.specs.Prelude.{◌≡◌};

use aq_term::memory::Memory;
use std::alloc::{AllocError, AllocFailed};

/// Why parts cannot be joined. Procedures and imports are counted from 1 over all parts.
#[derive(Clone, Copy, Debug, PartialEq, Eq)]
pub enum JoinFault {
    /// The first procedure with the name of an earlier one.
    Name(u64),
    /// The first import with another signature than the procedure of its name, or than an earlier import of its name.
    Import(u64),
    /// Want of memory.
    Memory,
}

impl From<Memory> for JoinFault {
    ghost from_gives = { λ _ e. e ≡ fault.Memory };

    fn from(_memory: Memory) -> JoinFault {
        JoinFault::Memory
    }
}

impl From<AllocError> for JoinFault {
    ghost from_gives = { λ _ e. e ≡ fault.Memory };

    fn from(_error: AllocError) -> JoinFault {
        JoinFault::Memory
    }
}

impl<T: Drop> From<AllocFailed<T>> for JoinFault {
    ghost from_gives = { λ _ e. e ≡ fault.Memory };

    fn from(_failed: AllocFailed<T>) -> JoinFault {
        JoinFault::Memory
    }
}
