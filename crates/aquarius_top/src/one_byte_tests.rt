//! Worked runs over sources that give and sinks that take one byte a call, without a failure and with one at each call.

use crate::tests::{APPEND_PROGRAM, APPEND_QUERY, answer, words_of, written};
use aq_base::memory_sink::MemorySink;
use aq_base::memory_source::MemorySource;
use aq_base::status::Status;
use std::alloc::Global;
use std::test::Fail;

const RUN: &[&str] = &["run", APPEND_QUERY];

const BAM: &[&str] = &["bam"];

/// How many bytes a run of these tests may write.
const ROOM: usize = 10_000;

/// The sink and the status of a run of words on the program of append. The source gives and the sink takes one byte a call. The
/// calls of the source, and those of the sink, whose numbers are listed fail.
fn run_by_bytes(
    alloc: Global,
    words: &[&str],
    failing_reads: Vec<u64>,
    failing_writes: Vec<u64>,
) -> Result<(MemorySink, Status), Fail> {
    let words = words_of(alloc, words)?;
    let text = Vec::from_slice(alloc, APPEND_PROGRAM.as_bytes())?;
    let mut source = MemorySource::new(text, 1, failing_reads);
    let mut sink = MemorySink::new(alloc, ROOM, 1, failing_writes)?;
    let status = answer(alloc, &words, &mut source, &mut sink);
    Ok((sink, status))
}

#[test]
fn a_sink_that_fails_at_a_call_has_the_bytes_before_it(rt: HostRuntime) -> Result<(), Fail> {
    let alloc = rt.alloc();
    let whole = written(alloc, RUN, APPEND_PROGRAM.as_bytes())?;
    for call in 1..20 {
        let (sink, status) = run_by_bytes(alloc, RUN, Vec::new(alloc), vec![in alloc; call]?)?;
        assert_eq!(rt; status, Status::WriteFault);
        assert_eq!(rt; sink.bytes().len() as u64 + 1, call);
        assert!(rt; whole.starts_with(sink.bytes()), "call {call}");
    }
    Ok(())
}

#[test]
fn a_source_that_fails_at_a_call_gives_no_byte_of_a_run(rt: HostRuntime) -> Result<(), Fail> {
    let alloc = rt.alloc();
    for call in 1..41 {
        let (sink, status) = run_by_bytes(alloc, RUN, vec![in alloc; call]?, Vec::new(alloc))?;
        assert_eq!(rt; status, Status::ReadFault, "call {call}");
        assert_eq!(rt; sink.bytes().len(), 0, "call {call}");
    }
    Ok(())
}

#[test]
fn pieces_of_one_byte_change_nothing(rt: HostRuntime) -> Result<(), Fail> {
    let alloc = rt.alloc();
    for words in [RUN, BAM] {
        let whole = written(alloc, words, APPEND_PROGRAM.as_bytes())?;
        let (sink, status) = run_by_bytes(alloc, words, Vec::new(alloc), Vec::new(alloc))?;
        assert_eq!(rt; status, Status::Solved);
        assert_eq!(rt; sink.bytes(), whole.as_slice());
    }
    Ok(())
}
