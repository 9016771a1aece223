ghost use Rattle.std.specs.Prelude.{◌≡◌, ◌<◌};

use aq_base::memory_sink::MemorySink;
use aq_base::memory_source::MemorySource;
use aq_base::sink::Sink;
use aq_base::source::Source;
use aq_base::status::Status;
use aq_base::steps::Steps;
use aquarius_top::top::aquarius;
use source_interpreter::agreement::{Agreement, agreement_of};
use source_interpreter::interpreter::Bounds;
use source_interpreter::reading::interpret_text;
use std::alloc::{AllocError, Global};
use std::marker::Brand;
use std::sync::ledger::{Blank, Ledger};
use std::test::Fail;

/// The most bytes that a run may write.
const ROOM: usize = 4_000_000;

/// The steps of a compiled run, and the words of each of its areas.
const LIMITS: [&str; 12] = [
    "--steps", "400000", "--heap", "200000", "--env", "100000", "--choice", "100000", "--trail",
    "100000", "--work", "100000",
];

/// How far the runs of a query agree, and what each wrote.
#[derive(Drop)]
pub struct Compared {
    pub agreement: Agreement,
    pub interpreted: Vec<u8>,
    pub compiled: Vec<u8>,
}

/// The runs of a query on a program.
pub fn compare(
    alloc: Global,
    program: &str,
    query: &str,
    bounds: Bounds,
) -> Result<Compared, Fail> {
    let interpreted = interpret_text(alloc, program.as_bytes(), query.as_bytes(), bounds)?;
    let compiled = compiled_run(alloc, program, query)?;
    Ok(Compared {
        agreement: agreement_of(&interpreted, compiled.as_slice()),
        interpreted: interpreted.bytes,
        compiled,
    })
}

/// All that a compiled run writes.
fn compiled_run(alloc: Global, program: &str, query: &str) -> Result<Vec<u8>, Fail> {
    let words = words_of(alloc, query)?;
    let text = Vec::from_slice(alloc, program.as_bytes())?;
    let mut source = MemorySource::new(text, ROOM, Vec::new(alloc));
    let mut sink = MemorySink::new(alloc, ROOM, ROOM, Vec::new(alloc))?;
    let _status = answer(alloc, &words, &mut source, &mut sink);
    Ok(Vec::from_slice(alloc, sink.bytes())?)
}

/// The command that runs a query.
fn words_of(alloc: Global, query: &str) -> Result<Vec<String>, AllocError> {
    let mut words = Vec::new(alloc);
    words.push(String::from_str(alloc, "run")?)?;
    words.push(String::from_str(alloc, query)?)?;
    for word in LIMITS {
        words.push(String::from_str(alloc, word)?)?;
    }
    Ok(words)
}

fn counted<S: Source, K: Sink, L: Ledger>(
    alloc: Global,
    words: &[String],
    source: &mut S,
    sink: &mut K,
    blank: Blank,
) -> Status
    requires name { blank.name ≡ L.name }
    requires parts { blank.parts ≡ L.parts }
    requires some_part { 0 < L.parts }
{
    let mut steps = Steps::<L>::new(blank);
    aquarius(alloc, words, source, sink, &mut steps)
}

/// The top call on a source and a sink in memory.
fn answer(
    alloc: Global,
    words: &[String],
    source: &mut MemorySource,
    sink: &mut MemorySink,
) -> Status {
    counted::<_, _, Brand>(alloc, words, source, sink, Blank::new(1))
}
