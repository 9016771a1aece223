ghost use Rattle.std.specs.Prelude.{◌≡◌, ◌≤◌, Some, drop, vec_len};

use crate::piece::give_piece;
use crate::source::{Failed, Source, count_fault};

/// A source in memory, for tests: the calls of `read` listed as failing fail, the others give a piece.
#[derive(Drop)]
pub struct MemorySource {
    bytes: Vec<u8>,
    at: usize,
    most: usize,
    failing: Vec<u64>,
    calls: u64,
    faults: u64,
    ghost within: { at ≤ vec_len bytes },
    ghost gives_some: { 1 ≤ most },
}

impl MemorySource {
    /// A source of these bytes that gives at most `most` bytes a call; the calls whose numbers, from 1, are in
    /// `failing` fail.
    pub fn new(bytes: Vec<u8>, most: usize, failing: Vec<u64>) -> MemorySource
        requires { 1 ≤ most }
        ensures remaining { ⟦<MemorySource as Source>⟧.remaining result ≡ Some bytes.items }
        ensures faults { ⟦<MemorySource as Source>⟧.faults result ≡ 0 }
    {
        MemorySource {
            bytes,
            at: 0,
            most,
            failing,
            calls: 0,
            faults: 0,
        }
    }
}

impl Source for MemorySource {
    ghost remaining = { λ s. Some (drop s.at s.bytes.items) };

    ghost faults = { λ s. s.faults };

    fn read(&mut self, buffer: &mut [u8]) -> Result<usize, Failed> {
        self.calls = self.calls.saturating_add(1);
        if self.failing.contains(&self.calls) {
            return Err(count_fault(&mut self.faults));
        }
        let count = give_piece(&self.bytes, self.at, self.most, buffer);
        self.at += count;
        Ok(count)
    }
}
