//! Answers: the lines that tell the values of a query's variables.
ghost use Rattle.std.specs.Prelude.{◌≡◌, ◌≤◌, IfErr, OnErr};
ghost use Rattle.aq_base.specs.Faults.{HasRisen};
ghost use Rattle.answer_io.specs.Rise.{rise, HasRisenBy};

use crate::halt::Halt;
use crate::query::Query;
use crate::visit::{Position, Visit};
use crate::writing::Writing;
use crate::wrote::Wrote;
use aq_base::put::put;
use aq_base::sink::Sink;
use aq_base::source::Failed;
use aq_term::atoms::Atoms;
use machine_store::store::Store;
use prolog_writer::spelling::Quoting;
use tag_word::tag::Tag;
use tag_word::word::Word;

/// The priority of a value in an answer.
const VALUE: u16 = 699;

/// Writes an answer's lines: for each variable of the query other than `_`, in order of first occurrence, the line `NAME = TERM`, or
/// the line `true` where there is none, and then the line `;`. A value is the one of the variable's own cell, which stands as far
/// behind `base`, the heap index of the query's first word, as the query says. Variables are numbered over all values together.
///
/// Visits, `begun` and the work area are as with `write_words`. A new line before the answer is the caller's: see `end_line`.
pub fn write_answer<K: Sink>(
    store: &mut Store,
    atoms: &Atoms,
    query: &Query,
    base: u64,
    sink: &mut K,
    begun: &mut bool,
    left: &mut u64,
) -> Wrote
    ensures failed { result ≡ Wrote.Failed → HasRisen (K.faults sink.old) (K.faults sink.new) }
    ensures never_falls { K.faults sink.old ≤ K.faults sink.new }
    ensures left { left.new ≤ left.old }
{
    let words = store.work_len();
    let mut writing = Writing::new(atoms, Quoting::Quoted, words);
    let outcome = write_lines(&mut writing, store, query, base, sink, left);
    match outcome {
        Ok(()) => writing.finished(store, sink, begun, Wrote::Done),
        Err(halt) => writing.halted(store, sink, begun, halt),
    }
}

/// Writes the lines of an answer.
fn write_lines<K: Sink>(
    writing: &mut Writing<'_>,
    store: &mut Store,
    query: &Query,
    base: u64,
    sink: &mut K,
    left: &mut u64,
) -> Result<(), Halt>
    ensures failed { IfErr result (λ e. HasRisenBy (rise e) (K.faults sink.old) (K.faults sink.new)) }
    ensures never_falls { K.faults sink.old ≤ K.faults sink.new }
    ensures left { left.new ≤ left.old }
{
    let mut last: &[u8] = b"true\n;\n";
    for (name, place) in query.names.as_slice().iter().zip(query.cells.as_slice()) {
        if name.as_str() != "_" {
            let cell = Word::of(Tag::Ref, base.saturating_add(*place));
            write_binding(writing, store, name.as_str(), cell, sink, left)?;
            last = b";\n";
        }
    }
    writing.text.output.bytes(sink, last)?;
    Ok(())
}

/// Writes the line `NAME = TERM`.
fn write_binding<K: Sink>(
    writing: &mut Writing<'_>,
    store: &mut Store,
    name: &str,
    word: Word,
    sink: &mut K,
    left: &mut u64,
) -> Result<(), Halt>
    ensures failed { IfErr result (λ e. HasRisenBy (rise e) (K.faults sink.old) (K.faults sink.new)) }
    ensures never_falls { K.faults sink.old ≤ K.faults sink.new }
    ensures left { left.new ≤ left.old }
{
    writing.text.output.bytes(sink, name.as_bytes())?;
    writing.text.output.bytes(sink, b" = ")?;
    let first = Visit {
        word,
        position: Position::Within(VALUE),
    };
    writing.term(store, sink, left, first)?;
    writing.text.output.byte(sink, b'\n')?;
    Ok(())
}

/// Writes a new line where a line is begun.
pub fn end_line<K: Sink>(sink: &mut K, begun: &mut bool) -> Result<(), Failed>
    ensures failed { OnErr result (HasRisen (K.faults sink.old) (K.faults sink.new)) }
    ensures never_falls { K.faults sink.old ≤ K.faults sink.new }
{
    if *begun {
        put(sink, b"\n")?;
        *begun = false;
    }
    Ok(())
}
