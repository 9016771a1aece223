ghost use Rattle.std.specs.Prelude.{◌≡◌, ◌≤◌, [], Some, vec_len, IfOk};

use crate::sink::Sink;
use crate::source::{Failed, count_fault};
use aq_term::memory::Memory;
use std::alloc::Global;

/// A sink in memory, for tests: the calls of `write` listed as failing fail, the others take a piece.
#[derive(Drop)]
pub struct MemorySink {
    bytes: Vec<u8>,
    room: usize,
    most: usize,
    failing: Vec<u64>,
    calls: u64,
    faults: u64,
    ghost within: { vec_len bytes ≤ room },
    ghost takes_some: { 1 ≤ most },
}

impl MemorySink {
    /// A sink that keeps up to `room` bytes and then fails, and takes at most `most` bytes a call; the calls whose
    /// numbers, from 1, are in `failing` fail.
    pub fn new(
        alloc: Global,
        room: usize,
        most: usize,
        failing: Vec<u64>,
    ) -> Result<MemorySink, Memory>
        requires { 1 ≤ most }
        ensures taken { IfOk result (λ sink. ⟦<MemorySink as Sink>⟧.taken sink ≡ Some []) }
        ensures faults { IfOk result (λ sink. ⟦<MemorySink as Sink>⟧.faults sink ≡ 0) }
    {
        let bytes = Vec::with_capacity(alloc, room)?;
        Ok(MemorySink {
            bytes,
            room,
            most,
            failing,
            calls: 0,
            faults: 0,
        })
    }

    /// The bytes taken so far.
    pub fn bytes(&self) -> &[u8]
        ensures { Some result.now ≡ ⟦<MemorySink as Sink>⟧.taken self.now }
    {
        self.bytes.as_slice()
    }
}

impl Sink for MemorySink {
    ghost taken = { λ s. Some s.bytes.items };

    ghost faults = { λ s. s.faults };

    fn write(&mut self, bytes: &[u8]) -> Result<usize, Failed> {
        self.calls = self.calls.saturating_add(1);
        if self.failing.contains(&self.calls) {
            return Err(count_fault(&mut self.faults));
        }
        let count = bytes.len().min(self.most).min(self.room - self.bytes.len());
        if count == 0 && !bytes.is_empty() {
            return Err(count_fault(&mut self.faults));
        }
        if self.bytes.extend_from_slice(&bytes[..count]).is_err() {
            return Err(count_fault(&mut self.faults));
        }
        Ok(count)
    }
}
