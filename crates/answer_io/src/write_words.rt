ghost use Rattle.std.specs.Prelude.{◌≡◌, ◌≤◌};
ghost use Rattle.aq_base.specs.Faults.{HasRisen};

use crate::visit::{Position, Visit};
use crate::writing::Writing;
use crate::wrote::Wrote;
use aq_base::sink::Sink;
use aq_term::atoms::Atoms;
use machine_store::store::Store;
use prolog_writer::spelling::Quoting;
use tag_word::word::Word;

/// Writes the term that a word stands for, in brackets where its priority is above `most`, which is at most 1200. Variables are named
/// `_0`, `_1`, .. in order of first occurrence. Each node is a visit, and so is, for each variable, each earlier one with which it is
/// compared; each takes one of `left`, and the write is `Stopped` where none is left.
///
/// `begun` says whether bytes were written and the last one is no new line; the call keeps it so, but for `Failed`. The work area
/// is afterwards as it was, and took at most three words a visit.
pub fn write_words<K: Sink>(
    store: &mut Store,
    atoms: &Atoms,
    word: Word,
    quoted: bool,
    most: u16,
    sink: &mut K,
    begun: &mut bool,
    left: &mut u64,
) -> Wrote
    ensures failed { result ≡ Wrote.Failed → HasRisen (K.faults sink.old) (K.faults sink.new) }
    ensures never_falls { K.faults sink.old ≤ K.faults sink.new }
    ensures left { left.new ≤ left.old }
{
    let base = store.work_len();
    let mut writing = Writing::new(atoms, Quoting::of(quoted), base);
    let first = Visit {
        word,
        position: Position::Within(most),
    };
    let outcome = writing.term(store, sink, left, first);
    match outcome {
        Ok(()) => writing.finished(store, sink, begun, Wrote::Done),
        Err(halt) => writing.halted(store, sink, begun, halt),
    }
}
