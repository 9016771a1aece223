//! Bytes on their way to a sink.
ghost use Rattle.std.specs.Prelude.{◌≡◌, ◌≤◌, OnErr};
ghost use Rattle.aq_base.specs.Faults.{HasRisen};

use aq_base::put::put;
use aq_base::sink::Sink;
use aq_base::source::Failed;
use itoa::Buffer;
use prolog_writer::gap::Gap;
use prolog_writer::spelling::{Quoting, escaped, is_bare, is_symbol};

/// The most bytes that are gathered before they go to the sink.
const ROOM: usize = 256;

/// A text that goes to a sink in pieces: the bytes that are gathered, the last byte of the text so far, and what stands before the
/// next one.
#[derive(Debug, Drop)]
pub struct Output {
    buffer: [u8; ROOM],
    len: usize,
    last: Option<u8>,
    gap: Gap,
    ghost within: { len ≤ 256 },
}

impl Output {
    /// No text.
    pub fn new() -> Output {
        Output {
            buffer: [0; ROOM],
            len: 0,
            last: None,
            gap: Gap::Closed,
        }
    }

    /// Gives the sink what is gathered, and says in `begun` whether the last byte of a text is no new line.
    pub fn finish<K: Sink>(mut self, sink: &mut K, begun: &mut bool) -> Result<(), Failed>
        ensures failed { OnErr result (HasRisen (K.faults sink.old) (K.faults sink.new)) }
        ensures never_falls { K.faults sink.old ≤ K.faults sink.new }
    {
        if let Some(last) = self.last {
            *begun = last != b'\n';
        }
        self.flush(sink)
    }

    /// Leaves a gap at the end.
    pub fn gap(&mut self, gap: Gap) {
        self.gap = gap;
    }

    /// Appends a byte, after a space where the gap asks for one.
    pub fn byte<K: Sink>(&mut self, sink: &mut K, byte: u8) -> Result<(), Failed>
        ensures failed { OnErr result (HasRisen (K.faults sink.old) (K.faults sink.new)) }
        ensures never_falls { K.faults sink.old ≤ K.faults sink.new }
    {
        if self.gap.wants_space(byte) {
            self.keep(sink, b' ')?;
        }
        self.gap = Gap::Closed;
        self.keep(sink, byte)
    }

    /// Appends bytes, after a space where the gap asks for one before the first.
    pub fn bytes<K: Sink>(&mut self, sink: &mut K, bytes: &[u8]) -> Result<(), Failed>
        ensures failed { OnErr result (HasRisen (K.faults sink.old) (K.faults sink.new)) }
        ensures never_falls { K.faults sink.old ≤ K.faults sink.new }
    {
        match bytes {
            [] => Ok(()),
            [first, rest @ ..] => {
                self.byte(sink, *first)?;
                self.keep_all(sink, rest)
            }
        }
    }

    /// Ends a left operand: appends a space where the last byte is a symbol character.
    pub fn end_of_left<K: Sink>(&mut self, sink: &mut K) -> Result<(), Failed>
        ensures failed { OnErr result (HasRisen (K.faults sink.old) (K.faults sink.new)) }
        ensures never_falls { K.faults sink.old ≤ K.faults sink.new }
    {
        match self.last {
            Some(last) if is_symbol(last) => {
                self.gap = Gap::Closed;
                self.keep(sink, b' ')
            }
            _ => Ok(()),
        }
    }

    /// Appends a name as it stands alone.
    pub fn name<K: Sink>(
        &mut self,
        sink: &mut K,
        name: &[u8],
        quoting: Quoting,
    ) -> Result<(), Failed>
        ensures failed { OnErr result (HasRisen (K.faults sink.old) (K.faults sink.new)) }
        ensures never_falls { K.faults sink.old ≤ K.faults sink.new }
    {
        match quoting {
            Quoting::Quoted if !is_bare(name) => self.quoted(sink, name),
            _ => self.bytes(sink, name),
        }
    }

    /// Appends a name in single quotes.
    fn quoted<K: Sink>(&mut self, sink: &mut K, name: &[u8]) -> Result<(), Failed>
        ensures failed { OnErr result (HasRisen (K.faults sink.old) (K.faults sink.new)) }
        ensures never_falls { K.faults sink.old ≤ K.faults sink.new }
    {
        self.byte(sink, b'\'')?;
        for byte in name {
            self.bytes(sink, escaped(*byte).as_slice())?;
        }
        self.byte(sink, b'\'')
    }

    /// Appends an integer.
    pub fn integer<K: Sink>(&mut self, sink: &mut K, value: i64) -> Result<(), Failed>
        ensures failed { OnErr result (HasRisen (K.faults sink.old) (K.faults sink.new)) }
        ensures never_falls { K.faults sink.old ≤ K.faults sink.new }
    {
        let mut buffer = Buffer::new();
        self.bytes(sink, buffer.format(value).as_bytes())
    }

    /// Appends the name of the variable with this number.
    pub fn variable<K: Sink>(&mut self, sink: &mut K, number: u64) -> Result<(), Failed>
        ensures failed { OnErr result (HasRisen (K.faults sink.old) (K.faults sink.new)) }
        ensures never_falls { K.faults sink.old ≤ K.faults sink.new }
    {
        let mut buffer = Buffer::new();
        self.byte(sink, b'_')?;
        self.bytes(sink, buffer.format(number).as_bytes())
    }

    /// Appends a byte as it is.
    fn keep<K: Sink>(&mut self, sink: &mut K, byte: u8) -> Result<(), Failed>
        ensures failed { OnErr result (HasRisen (K.faults sink.old) (K.faults sink.new)) }
        ensures never_falls { K.faults sink.old ≤ K.faults sink.new }
    {
        if self.len == ROOM {
            self.flush(sink)?;
        }
        self.buffer[self.len] = byte;
        self.len += 1;
        self.last = Some(byte);
        Ok(())
    }

    /// Appends bytes as they are.
    fn keep_all<K: Sink>(&mut self, sink: &mut K, bytes: &[u8]) -> Result<(), Failed>
        ensures failed { OnErr result (HasRisen (K.faults sink.old) (K.faults sink.new)) }
        ensures never_falls { K.faults sink.old ≤ K.faults sink.new }
    {
        let Some(last) = bytes.last() else {
            return Ok(());
        };
        self.last = Some(*last);
        if bytes.len() > ROOM - self.len {
            self.flush(sink)?;
        }
        if bytes.len() > ROOM {
            return put(sink, bytes);
        }
        self.buffer[self.len..self.len + bytes.len()].copy_from_slice(bytes);
        self.len += bytes.len();
        Ok(())
    }

    /// Gives the sink what is gathered.
    fn flush<K: Sink>(&mut self, sink: &mut K) -> Result<(), Failed>
        ensures failed { OnErr result (HasRisen (K.faults sink.old) (K.faults sink.new)) }
        ensures never_falls { K.faults sink.old ≤ K.faults sink.new }
        ensures empty { self.new.len ≡ 0 }
    {
        let len = self.len;
        self.len = 0;
        put(sink, &self.buffer[..len])
    }
}
