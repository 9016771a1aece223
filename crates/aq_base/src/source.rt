ghost use Rattle.std.specs.Prelude.{◌≤◌, ℕ, List, Option, IfOk, OnErr, length};
ghost use Rattle.std.specs.Io.KnownBytes.{ReadConsumes};
ghost use Rattle.aq_base.specs.Faults.{HasRisen};

use thiserror::Error;

/// A fault of a source or a sink, which its count of faults shows.
#[derive(Clone, Copy, Debug, PartialEq, Eq, Error)]
#[error("a read or a write failed")]
pub struct Failed;

/// Counts a fault; a count at its last value stays there.
pub(crate) fn count_fault(count: &mut u64) -> Failed
    ensures risen { HasRisen count.old count.new }
    ensures never_falls { count.old ≤ count.new }
{
    *count = count.saturating_add(1);
    Failed
}

/// Where bytes come from.
pub trait Source {
    /// The bytes left, where they are told.
    ghost remaining: { Self → Option (List ℕ) };

    /// How many faults there were.
    ghost faults: { Self → ℕ };

    /// Fills the front of `buffer` and answers how many bytes were given. None for a buffer that has room is the end
    /// of the input. A fault gives nothing, leaves the bytes left as they were, and is counted.
    fn read(&mut self, buffer: &mut [u8]) -> Result<usize, Failed>
        ensures within { IfOk result (λ n. n ≤ length buffer.new) }
        ensures bytes { ReadConsumes (remaining self.old) (remaining self.new) result buffer.new }
        ensures failed { OnErr result (HasRisen (faults self.old) (faults self.new)) }
        ensures never_falls { faults self.old ≤ faults self.new };
}
