ghost use Rattle.std.specs.Prelude.{◌≡◌, ◌≤◌, Some, drop, vec_len};

use crate::piece::give_piece;
use crate::source::{Failed, Source};

/// A source in memory that never fails.
#[derive(Drop)]
pub struct SureSource {
    bytes: Vec<u8>,
    at: usize,
    ghost within: { at ≤ vec_len bytes },
}

impl SureSource {
    /// A source of these bytes.
    pub fn new(bytes: Vec<u8>) -> SureSource
        ensures { ⟦<SureSource as Source>⟧.remaining result ≡ Some bytes.items }
    {
        SureSource { bytes, at: 0 }
    }
}

impl Source for SureSource {
    ghost remaining = { λ s. Some (drop s.at s.bytes.items) };

    ghost faults = { λ _. 0 };

    fn read(&mut self, buffer: &mut [u8]) -> Result<usize, Failed> {
        let count = give_piece(&self.bytes, self.at, usize::MAX, buffer);
        self.at += count;
        Ok(count)
    }
}
