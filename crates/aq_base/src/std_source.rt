ghost use Rattle.std.specs.Prelude.{◌≡◌, None};

use crate::source::{Failed, Source, count_fault};
use std::io::Read;

/// A source over std's `Read`. It tells nothing of its content.
#[derive(Drop)]
pub struct StdSource<R: Drop> {
    reader: R,
    faults: u64,
}

impl<R: Read + Drop> StdSource<R> {
    /// A source over the reader, with no fault counted yet.
    pub fn new(reader: R) -> StdSource<R>
        ensures { result.faults ≡ 0 }
    {
        StdSource { reader, faults: 0 }
    }
}

impl<R: Read + Drop> Source for StdSource<R> {
    ghost remaining = { λ _. None };

    ghost faults = { λ s. s.faults };

    fn read(&mut self, buffer: &mut [u8]) -> Result<usize, Failed> {
        match self.reader.read(buffer) {
            Ok(count) => Ok(count),
            Err(_error) => Err(count_fault(&mut self.faults)),
        }
    }
}
