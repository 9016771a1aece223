ghost use Rattle.std.specs.Prelude.{◌≡◌};
ghost use Rattle.part_link.specs.declared.parts_fault.PartsFault.TheVariants as fault;

use aq_term::memory::Memory;
use thiserror::Error;

/// Why bytes are no BAM texts one after another.
#[derive(Clone, Copy, Debug, PartialEq, Eq, Error)]
pub enum PartsFault {
    /// The first part that is no text, from 1, and its first faulty line, from 1 within the part.
    #[error("part {part} line {line}")]
    Line { part: u64, line: u64 },
    #[error("out of memory")]
    Memory,
}

impl From<Memory> for PartsFault {
    ghost from_gives = { λ _ e. e ≡ fault.Memory };

    fn from(_error: Memory) -> PartsFault {
        PartsFault::Memory
    }
}
