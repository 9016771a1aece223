ghost use Rattle.std.specs.Prelude.{◌≡◌, None};

use crate::sink::Sink;
use crate::source::Failed;

/// A sink that never fails and keeps the number of bytes alone. It tells nothing of its content.
#[derive(Drop)]
pub struct CountSink {
    count: u64,
}

impl CountSink {
    /// A sink that has taken nothing yet.
    pub fn new() -> CountSink
        ensures { result.count ≡ 0 }
    {
        CountSink { count: 0 }
    }

    /// How many bytes were taken, or the last value of a u64 where there were more.
    pub fn count(&self) -> u64
        ensures { result ≡ self.now.count }
    {
        self.count
    }
}

impl Sink for CountSink {
    ghost taken = { λ _. None };

    ghost faults = { λ _. 0 };

    fn write(&mut self, bytes: &[u8]) -> Result<usize, Failed> {
        self.count = self.count.saturating_add(bytes.len() as u64);
        Ok(bytes.len())
    }
}
