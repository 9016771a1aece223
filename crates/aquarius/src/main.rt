//! The program: it makes the real source and sink, calls the top call, and ends with the status's code.
#![tactic(auto)]

ghost use Rattle.std.specs.Prelude.{◌≡◌, ◌<◌};

use aq_base::sink::Sink;
use aq_base::source::Source;
use aq_base::status::Status;
use aq_base::std_sink::StdSink;
use aq_base::std_source::StdSource;
use aq_base::steps::Steps;
use aq_term::memory::Memory;
use aquarius_top::top::aquarius;
use std::alloc::Global;
use std::env;
use std::io::ErrorKind;
use std::marker::Brand;
use std::process::ExitCode;
use std::sync::ledger::{Blank, Ledger};

fn main(rt: HostRuntime) -> ExitCode {
    let mut source = StdSource::new(rt.stdin());
    let mut sink = StdSink::new(rt.stdout());
    let status = match read_arguments(&rt) {
        Ok(words) => {
            run::<_, _, Brand>(rt.alloc(), &words, &mut source, &mut sink, Blank::new(1))
        }
        Err(Memory) => Status::Memory,
    };
    ExitCode::from(status.code())
}

/// The words behind the program's name, or none where one of them is not text, which is no command either.
fn read_arguments(rt: &HostRuntime) -> Result<Vec<String>, Memory> {
    match env::args(rt) {
        Ok(arguments) => Ok(arguments.skip(1).collect(rt.alloc())?),
        Err(error) if error.kind() == ErrorKind::OutOfMemory => Err(Memory),
        Err(_not_text) => Ok(Vec::new(rt.alloc())),
    }
}

/// The top call with a step counter of its own.
fn run<S: Source, K: Sink, L: Ledger>(
    alloc: Global,
    words: &[String],
    source: &mut S,
    sink: &mut K,
    blank: Blank,
) -> Status
    requires name { blank.name ≡ L.name }
    requires parts { blank.parts ≡ L.parts }
    requires some_part { 0 < L.parts }
{
    let mut steps = Steps::<L>::new(blank);
    aquarius(alloc, words, source, sink, &mut steps)
}
