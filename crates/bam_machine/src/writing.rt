//! What a machine writes.
ghost use Rattle.std.specs.Prelude.{◌≡◌, ◌≢◌, ℕ, ◌+◌, ◌≤◌, false, Some, None, length, take};
ghost use Rattle.std.specs.Io.KnownBytes.{Appends};
ghost use Rattle.aq_base.specs.Faults.{HasRisen};
ghost use Rattle.run_meaning.specs.Written.{true_lines};
ghost use Rattle.bam_machine.specs.declared.end.End.{End};

use crate::end::End;
use crate::machine::Machine;
use crate::output::Output;
use crate::step_end::StepEnd;
use crate::ticks::tick_all;
use answer_io::query::Query;
use answer_io::write_answer::{end_line, write_answer};
use answer_io::write_words::write_words;
use answer_io::wrote::Wrote;
use aq_base::count_sink::CountSink;
use aq_base::put::put;
use aq_base::sink::Sink;
use aq_base::steps::Steps;
use aq_term::atom::Atom;
use std::sync::ledger::Ledger;
use tag_word::tag::Tag;
use tag_word::word::Word;

/// The priority of a term that is written by itself.
const WHOLE: u16 = 1200;

impl<'a> Machine<'a> {
    /// Writes what an instruction wants written, and goes on or ends the run.
    pub(crate) fn write<K: Sink, L: Ledger>(
        &mut self,
        output: Output,
        sink: &mut K,
        steps: &mut Steps<L>,
    ) -> StepEnd
        ensures image { self.new.image ≡ self.old.image }
        ensures limits { self.new.limits ≡ self.old.limits }
        ensures more { self.old.steps ≤ self.new.steps }
        ensures no_solution { result ≢ StepEnd.Ended End.Solution }
        ensures fault { result ≡ StepEnd.Ended End.WriteFault → HasRisen (K.faults sink.old) (K.faults sink.new) }
        ensures never_falls { K.faults sink.old ≤ K.faults sink.new }
        ensures ticks { steps.new + self.old.steps ≡ steps.old + self.new.steps }
    {
        let before = self.steps;
        let ended = match output {
            Output::Plain => self.write_argument(false, sink),
            Output::Quoted => self.write_argument(true, sink),
            Output::NewLine => self.write_text(b"\n", sink),
            Output::Character => self.write_character(sink),
            Output::Uncaught => self.write_uncaught(sink),
        };
        tick_all(steps, self.steps - before);
        ended
    }

    /// Writes the term of register 0.
    fn write_argument<K: Sink>(&mut self, quoted: bool, sink: &mut K) -> StepEnd
        ensures image { self.new.image ≡ self.old.image }
        ensures limits { self.new.limits ≡ self.old.limits }
        ensures more { self.old.steps ≤ self.new.steps }
        ensures no_solution { result ≢ StepEnd.Ended End.Solution }
        ensures fault { result ≡ StepEnd.Ended End.WriteFault → HasRisen (K.faults sink.old) (K.faults sink.new) }
        ensures never_falls { K.faults sink.old ≤ K.faults sink.new }
    {
        let Ok(word) = self.engine.registers.get(0) else {
            return StepEnd::Ended(self.cut_off(End::Stray));
        };
        let atoms = self.engine.atoms;
        let mut left = self.left();
        let mut begun = self.begun;
        let wrote = write_words(
            &mut self.engine.store,
            atoms,
            word,
            quoted,
            WHOLE,
            sink,
            &mut begun,
            &mut left,
        );
        self.begun = begun;
        self.use_up(left);
        match end_of(wrote) {
            None => StepEnd::Went,
            Some(end) => StepEnd::Ended(self.cut_off(end)),
        }
    }

    /// Writes the character whose atom register 0 stands for.
    fn write_character<K: Sink>(&mut self, sink: &mut K) -> StepEnd
        ensures image { self.new.image ≡ self.old.image }
        ensures limits { self.new.limits ≡ self.old.limits }
        ensures more { self.old.steps ≤ self.new.steps }
        ensures no_solution { result ≢ StepEnd.Ended End.Solution }
        ensures fault { result ≡ StepEnd.Ended End.WriteFault → HasRisen (K.faults sink.old) (K.faults sink.new) }
        ensures never_falls { K.faults sink.old ≤ K.faults sink.new }
    {
        let atoms = self.engine.atoms;
        match self.character() {
            Some(atom) => self.write_text(atoms.text_or_empty(atom).as_bytes(), sink),
            None => StepEnd::Ended(self.cut_off(End::Stray)),
        }
    }

    /// The atom that register 0 stands for.
    fn character(&self) -> Option<Atom> {
        let word = self.engine.registers.get(0).ok()?;
        let word = self.engine.store.deref(word)?;
        if word.tag() != Tag::Atm {
            return None;
        }
        let number = u32::try_from(word.value()).ok()?;
        Some(Atom { number })
    }

    /// Writes a text.
    fn write_text<K: Sink>(&mut self, text: &[u8], sink: &mut K) -> StepEnd
        ensures image { self.new.image ≡ self.old.image }
        ensures limits { self.new.limits ≡ self.old.limits }
        ensures more { self.old.steps ≤ self.new.steps }
        ensures no_solution { result ≢ StepEnd.Ended End.Solution }
        ensures fault { result ≡ StepEnd.Ended End.WriteFault → HasRisen (K.faults sink.old) (K.faults sink.new) }
        ensures never_falls { K.faults sink.old ≤ K.faults sink.new }
    {
        if put(sink, text).is_err() {
            return StepEnd::Ended(self.cut_off(End::WriteFault));
        }
        if let Some(last) = text.last() {
            self.begun = *last != b'\n';
        }
        StepEnd::Went
    }

    /// Visits the ball that nothing catches, and then writes its line. Of `error(T,U)` it is T alone. Nothing is written
    /// where the visits are cut short.
    fn write_uncaught<K: Sink>(&mut self, sink: &mut K) -> StepEnd
        ensures image { self.new.image ≡ self.old.image }
        ensures limits { self.new.limits ≡ self.old.limits }
        ensures more { self.old.steps ≤ self.new.steps }
        ensures no_solution { result ≢ StepEnd.Ended End.Solution }
        ensures fault { result ≡ StepEnd.Ended End.WriteFault → HasRisen (K.faults sink.old) (K.faults sink.new) }
        ensures never_falls { K.faults sink.old ≤ K.faults sink.new }
    {
        let atoms = self.engine.atoms;
        let term = self.engine.reported(self.engine.ball);
        let mut left = self.left();
        let mut nowhere = CountSink::new();
        let mut unseen = false;
        let visited = write_words(
            &mut self.engine.store,
            atoms,
            term,
            true,
            WHOLE,
            &mut nowhere,
            &mut unseen,
            &mut left,
        );
        self.use_up(left);
        if let Some(end) = end_of(visited) {
            return StepEnd::Ended(self.cut_off(end));
        }
        let mut begun = self.begun;
        let end = self.write_error(term, sink, &mut begun);
        self.begun = begun;
        StepEnd::Ended(self.cut_off(end))
    }

    /// Writes the line of a raised term, whose visits are counted.
    fn write_error<K: Sink>(&mut self, term: Word, sink: &mut K, begun: &mut bool) -> End
        ensures same { self.new ≡ record self.old { areas = self.new.areas } }
        ensures no_solution { result ≢ End.Solution }
        ensures fault { result ≡ End.WriteFault → HasRisen (K.faults sink.old) (K.faults sink.new) }
        ensures never_falls { K.faults sink.old ≤ K.faults sink.new }
    {
        if end_line(sink, begun).is_err() {
            return End::WriteFault;
        }
        if put(sink, b"error: ").is_err() {
            return End::WriteFault;
        }
        let atoms = self.engine.atoms;
        let mut ample = u64::MAX;
        let wrote = write_words(
            &mut self.engine.store,
            atoms,
            term,
            true,
            WHOLE,
            sink,
            begun,
            &mut ample,
        );
        if let Some(end) = end_of(wrote) {
            return end;
        }
        if put(sink, b"\n").is_err() {
            return End::WriteFault;
        }
        *begun = false;
        End::Raised
    }

    /// Writes an answer: the values of the query's variables, or `true` without a query.
    pub(crate) fn write_answer<K: Sink, L: Ledger>(
        &mut self,
        sink: &mut K,
        steps: &mut Steps<L>,
    ) -> End
        ensures wrote { self.old.has_query ≡ false → self.old.begun ≡ false → result ≡ End.Solution
            → (self.new ≡ self.old) × Appends (K.taken sink.old) (K.taken sink.new) true_lines }
        ensures fault { result ≡ End.WriteFault → HasRisen (K.faults sink.old) (K.faults sink.new) }
        ensures cut_short { self.old.has_query ≡ false → self.old.begun ≡ false → result ≢ End.Solution
            → (result ≡ End.WriteFault) × ((n : ℕ) × (n ≤ length true_lines)
            × Appends (K.taken sink.old) (K.taken sink.new) (take n true_lines)) }
        ensures never_falls { K.faults sink.old ≤ K.faults sink.new }
        ensures image { self.new.image ≡ self.old.image }
        ensures limits { self.new.limits ≡ self.old.limits }
        ensures more { self.old.steps ≤ self.new.steps }
        ensures ticks { steps.new + self.old.steps ≡ steps.old + self.new.steps }
    {
        if self.begun && put(sink, b"\n").is_err() {
            return self.cut_off(End::WriteFault);
        }
        let Some(query) = self.query else {
            return self.write_true(sink);
        };
        let before = self.steps;
        let end = self.write_values(query, sink);
        tick_all(steps, self.steps - before);
        end
    }

    /// Writes the answer of a run without a query.
    fn write_true<K: Sink>(&mut self, sink: &mut K) -> End
        ensures wrote { self.old.begun ≡ false → result ≡ End.Solution
            → (self.new ≡ self.old) × Appends (K.taken sink.old) (K.taken sink.new) true_lines }
        ensures fault { result ≢ End.Solution → (result ≡ End.WriteFault) × HasRisen (K.faults sink.old) (K.faults sink.new) }
        ensures cut_short { result ≢ End.Solution → (n : ℕ) × (n ≤ length true_lines)
            × Appends (K.taken sink.old) (K.taken sink.new) (take n true_lines) }
        ensures never_falls { K.faults sink.old ≤ K.faults sink.new }
        ensures image { self.new.image ≡ self.old.image }
        ensures limits { self.new.limits ≡ self.old.limits }
        ensures counted { self.new.steps ≡ self.old.steps }
    {
        if put(sink, b"true\n;\n").is_ok() {
            self.begun = false;
            return End::Solution;
        }
        self.cut_off(End::WriteFault)
    }

    /// Writes the values of a query's variables.
    fn write_values<K: Sink>(&mut self, query: &Query, sink: &mut K) -> End
        ensures fault { result ≡ End.WriteFault → HasRisen (K.faults sink.old) (K.faults sink.new) }
        ensures never_falls { K.faults sink.old ≤ K.faults sink.new }
        ensures image { self.new.image ≡ self.old.image }
        ensures limits { self.new.limits ≡ self.old.limits }
        ensures more { self.old.steps ≤ self.new.steps }
    {
        let atoms = self.engine.atoms;
        let base = self.base;
        let mut left = self.left();
        let mut begun = false;
        let wrote = write_answer(
            &mut self.engine.store,
            atoms,
            query,
            base,
            sink,
            &mut begun,
            &mut left,
        );
        self.begun = begun;
        self.use_up(left);
        match end_of(wrote) {
            None => End::Solution,
            Some(end) => self.cut_off(end),
        }
    }

    /// The run is over.
    fn cut_off(&mut self, end: End) -> End
        ensures ended { result ≡ end }
        ensures over { self.new ≡ record self.old { over_by = Some end } }
    {
        self.over_by = Some(end);
        end
    }
}

/// How a run ends whose write came to this, or `None` where all was written.
fn end_of(wrote: Wrote) -> Option<End>
    ensures written { result ≡ None → wrote ≡ Wrote.Done }
    ensures no_solution { result ≢ Some End.Solution }
    ensures fault { result ≡ Some End.WriteFault → wrote ≡ Wrote.Failed }
{
    match wrote {
        Wrote::Done => None,
        Wrote::Stopped => Some(End::StepLimit),
        Wrote::Full(area) => Some(End::AreaLimit(area)),
        Wrote::Stray => Some(End::Stray),
        Wrote::Failed => Some(End::WriteFault),
    }
}
