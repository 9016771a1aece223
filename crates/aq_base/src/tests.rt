//! The calls over sources and sinks, and the two adapters over std.
use crate::count_sink::CountSink;
use crate::limits::Limits;
use crate::memory_sink::MemorySink;
use crate::memory_source::MemorySource;
use crate::put::put;
use crate::read_all::{ReadFault, read_all};
use crate::refusal::{FormKind, LimitKind, ReadKind, Refusal, refusal_text};
use crate::sink::Sink;
use crate::source::{Failed, Source};
use crate::std_sink::StdSink;
use crate::std_source::StdSource;
use crate::sure_source::SureSource;
use aq_term::rule::Rule;
use std::io;
use std::io::{ErrorKind, Read, Write};
use std::test::Fail;

/// A reader of one byte a call that fails at its third.
#[derive(Drop)]
struct Faulty {
    calls: u8,
}

impl Read for Faulty {
    fn read(&mut self, buf: &mut [u8]) -> io::Result<usize> {
        self.calls = self.calls.saturating_add(1);
        if self.calls == 3 {
            return Err(io::Error::from(ErrorKind::BrokenPipe));
        }
        match buf.first_mut() {
            None => Ok(0),
            Some(byte) => {
                *byte = b'a';
                Ok(1)
            }
        }
    }
}

/// A writer that always fails.
#[derive(Drop)]
struct Closed;

impl Write for Closed {
    fn write(&mut self, _buf: &[u8]) -> io::Result<usize> {
        Err(io::Error::from(ErrorKind::BrokenPipe))
    }

    fn flush(&mut self) -> io::Result<()> {
        Ok(())
    }
}

#[test]
fn the_std_adapters_pass_bytes_on_and_count_faults(rt: HostRuntime) -> Result<(), Fail> {
    let mut source = StdSource::new(b"bytes".as_slice());
    let bytes = read_all(rt.alloc(), &mut source, 5)?;
    assert_eq!(rt; bytes.as_slice(), b"bytes".as_slice());

    let mut source = StdSource::new(Faulty { calls: 0 });
    let mut buffer = [0u8; 4];
    assert_eq!(rt; source.read(&mut buffer), Ok(1));
    assert_eq!(rt; source.read(&mut buffer), Ok(1));
    assert_eq!(rt; source.read(&mut buffer), Err(Failed));
    assert_eq!(rt; source.read(&mut buffer), Ok(1));

    let mut sink = StdSink::new(Vec::new(rt.alloc()));
    assert_eq!(rt; put(&mut sink, b"bytes"), Ok(()));
    assert_eq!(rt; put(&mut StdSink::new(Closed), b"bytes"), Err(Failed));
    Ok(())
}

#[test]
fn memory_sources_and_sinks_take_pieces_and_fail_as_listed(rt: HostRuntime) -> Result<(), Fail> {
    let alloc = rt.alloc();
    let text = Vec::from_slice(alloc, b"abcde")?;
    let mut source = MemorySource::new(text, 2, vec![in alloc; 2]?);
    let mut buffer = [0u8; 4];
    assert_eq!(rt; source.read(&mut buffer), Ok(2));
    assert_eq!(rt; source.read(&mut buffer), Err(Failed));
    let rest = read_all(alloc, &mut source, 3)?;
    assert_eq!(rt; rest.as_slice(), b"cde".as_slice());

    let text = Vec::from_slice(alloc, b"abcde")?;
    let mut source = SureSource::new(text);
    let failure = read_all(alloc, &mut source, 4).err();
    assert_eq!(rt; failure, Some(ReadFault::TooLong));

    let mut sink = MemorySink::new(alloc, 5, 2, vec![in alloc; 2]?)?;
    assert_eq!(rt; put(&mut sink, b"abc"), Err(Failed));
    assert_eq!(rt; sink.bytes(), b"ab".as_slice());
    assert_eq!(rt; put(&mut sink, b"cdef"), Err(Failed));
    assert_eq!(rt; sink.bytes(), b"abcde".as_slice());

    let mut counts = CountSink::new();
    assert_eq!(rt; counts.write(b"abc"), Ok(3));
    assert_eq!(rt; counts.count(), 3);
    Ok(())
}

#[test]
fn refusals_are_written_as_lines(rt: HostRuntime) -> Result<(), Fail> {
    for (refusal, line) in [
        (Refusal::InputLength, "refused: input length\n"),
        (
            Refusal::Token { clause: 2, at: 20 },
            "refused: clause 2: token at 20\n",
        ),
        (
            Refusal::Read {
                clause: 2,
                kind: ReadKind::IntegerRange,
            },
            "refused: clause 2: integer range\n",
        ),
        (
            Refusal::Form {
                clause: 3,
                kind: FormKind::Directive,
            },
            "refused: clause 3: directive\n",
        ),
        (
            Refusal::Limit {
                clause: 2,
                kind: LimitKind::Variables,
            },
            "refused: clause 2: limit variables\n",
        ),
        (Refusal::NoEntry, "refused: no entry\n"),
        (
            Refusal::EntryUndefined {
                clause: 18446744073709551615,
            },
            "refused: clause 18446744073709551615: entry undefined\n",
        ),
        (Refusal::QuerySyntax, "refused: query syntax\n"),
        (Refusal::NotEntry, "refused: query not entry\n"),
        (
            Refusal::QueryMode { argument: 1 },
            "refused: query mode 1\n",
        ),
        (Refusal::Text { line: 4 }, "refused: line 4\n"),
        (
            Refusal::Reject {
                proc: 1,
                line: 5,
                rule: Rule::Index,
            },
            "refused: proc 1 line 5: index\n",
        ),
        (
            Refusal::Undefined { import: 1 },
            "refused: import 1: undefined\n",
        ),
        (
            Refusal::PartText { part: 2, line: 2 },
            "refused: part 2 line 2\n",
        ),
        (
            Refusal::PartReject {
                part: 2,
                proc: 1,
                line: 5,
                rule: Rule::Catch,
            },
            "refused: part 2 proc 1 line 5: catch\n",
        ),
        (Refusal::JoinName { proc: 2 }, "refused: join name 2\n"),
        (
            Refusal::JoinImport { import: 1 },
            "refused: join import 1\n",
        ),
        (Refusal::Unsupported, "refused: unsupported\n"),
    ] {
        let written = refusal_text(rt.alloc(), &refusal)?;
        assert_eq!(rt; written.as_slice(), line.as_bytes());
    }
    Ok(())
}

#[test]
fn default_limits_are_those_of_the_manual(rt: HostRuntime) {
    let limits = Limits::default_limits();
    assert_eq!(rt; limits.steps, 100_000_000);
    assert_eq!(rt; limits.heap, 4_194_304);
}
