ghost use Rattle.std.specs.Prelude.{◌≡◌};
ghost use Rattle.bam_link.specs.declared.link_fault.LinkFault.TheVariants as fault;

use aq_term::memory::Memory;
use std::alloc::AllocError;

/// Why there is no image.
#[derive(Clone, Copy, Debug, PartialEq, Eq)]
pub enum LinkFault {
    /// The code has imports, and this is the number of the first, from 1.
    Undefined(u64),
    Memory,
}

impl From<Memory> for LinkFault {
    ghost from_gives = { λ _ e. e ≡ fault.Memory };

    fn from(_memory: Memory) -> LinkFault {
        LinkFault::Memory
    }
}

impl From<AllocError> for LinkFault {
    ghost from_gives = { λ _ e. e ≡ fault.Memory };

    fn from(_error: AllocError) -> LinkFault {
        LinkFault::Memory
    }
}
