ghost use Rattle.std.specs.Prelude.{◌≡◌, None};

use crate::sink::Sink;
use crate::source::{Failed, count_fault};
use std::io;
use std::io::Write;

/// A sink over std's `Write`, with a flush after each write. It tells nothing of its content.
#[derive(Drop)]
pub struct StdSink<W: Drop> {
    writer: W,
    faults: u64,
}

impl<W: Write + Drop> StdSink<W> {
    /// A sink over the writer, with no fault counted yet.
    pub fn new(writer: W) -> StdSink<W>
        ensures { result.faults ≡ 0 }
    {
        StdSink { writer, faults: 0 }
    }
}

fn write_through<W: Write>(writer: &mut W, bytes: &[u8]) -> io::Result<()> {
    writer.write_all(bytes)?;
    writer.flush()
}

impl<W: Write + Drop> Sink for StdSink<W> {
    ghost taken = { λ _. None };

    ghost faults = { λ s. s.faults };

    fn write(&mut self, bytes: &[u8]) -> Result<usize, Failed> {
        match write_through(&mut self.writer, bytes) {
            Ok(()) => Ok(bytes.len()),
            Err(_error) => Err(count_fault(&mut self.faults)),
        }
    }
}
