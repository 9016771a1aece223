//! Terms that are written as words of the heap stand for them, one node after another.
ghost use Rattle.std.specs.Prelude.{◌≡◌, ◌≢◌, ◌≤◌, ℕ, IfErr};
ghost use Rattle.answer_io.specs.Rise.{rise, HasRisenBy};
ghost use Rattle.aq_base.specs.Faults.{HasRisen};

use crate::halt::{Halt, count_visit};
use crate::node_text::NodeText;
use crate::rows::Rows;
use crate::step::Step;
use crate::visit::Visit;
use crate::wrote::Wrote;
use aq_base::sink::Sink;
use aq_term::atoms::Atoms;
use machine_store::store::Store;
use prolog_writer::spelling::Quoting;

/// A write: its text so far, and what is pending on the work area.
#[derive(Debug, Drop)]
pub struct Writing<'a> {
    pub text: NodeText<'a>,
    rows: Rows,
}

impl Writing<'_> {
    /// No text, where the work area has `base` words.
    pub fn new(atoms: &Atoms, quoting: Quoting, base: u64) -> Writing<'_> {
        Writing {
            text: NodeText::new(atoms, quoting),
            rows: Rows::new(base),
        }
    }

    /// Writes the term that a word stands for.
    pub fn term<K: Sink>(
        &mut self,
        store: &mut Store,
        sink: &mut K,
        left: &mut u64,
        first: Visit,
    ) -> Result<(), Halt>
        ensures failed { IfErr result (λ e. HasRisenBy (rise e) (K.faults sink.old) (K.faults sink.new)) }
        ensures never_falls { K.faults sink.old ≤ K.faults sink.new }
        ensures left { left.new ≤ left.old }
    {
        let mut due = Some(first);
        while let Some(visit) = due {
            count_visit(left)?;
            let step = self.text.visit(store, sink, visit)?;
            due = self.follow(store, sink, left, step)?;
        }
        Ok(())
    }

    /// The visit that is due after a step, if any.
    fn follow<K: Sink>(
        &mut self,
        store: &mut Store,
        sink: &mut K,
        left: &mut u64,
        step: Step,
    ) -> Result<Option<Visit>, Halt>
        ensures failed { IfErr result (λ e. HasRisenBy (rise e) (K.faults sink.old) (K.faults sink.new)) }
        ensures never_falls { K.faults sink.old ≤ K.faults sink.new }
        ensures left { left.new ≤ left.old }
    {
        match step {
            Step::Leaf => self.resume(store, sink),
            Step::Variable(cell) => {
                let number = self.rows.number(store, left, cell)?;
                self.text.output.variable(sink, number)?;
                self.resume(store, sink)
            }
            Step::Below(below) => {
                if let Some(pending) = below.pending {
                    self.rows.push(store, pending)?;
                }
                Ok(Some(below.visit))
            }
        }
    }

    /// Goes on with what is pending, up to a visit that is due.
    fn resume<K: Sink>(&mut self, store: &mut Store, sink: &mut K) -> Result<Option<Visit>, Halt>
        ensures failed { IfErr result (λ e. HasRisenBy (rise e) (K.faults sink.old) (K.faults sink.new)) }
        ensures never_falls { K.faults sink.old ≤ K.faults sink.new }
    {
        while let Some(pending) = self.rows.pop(store)? {
            let Some(below) = self.text.resume(store, sink, pending)? else {
                continue;
            };
            if let Some(pending) = below.pending {
                self.rows.push(store, pending)?;
            }
            return Ok(Some(below.visit));
        }
        Ok(None)
    }

    /// Ends a write that does not go on.
    pub fn halted<K: Sink>(
        self,
        store: &mut Store,
        sink: &mut K,
        begun: &mut bool,
        halt: Halt,
    ) -> Wrote
        ensures failed { (before : ℕ) → HasRisenBy (rise halt) before (K.faults sink.old) → result ≡ Wrote.Failed
            → HasRisen before (K.faults sink.new) }
        ensures never_falls { K.faults sink.old ≤ K.faults sink.new }
    {
        match halt {
            Halt::Stopped => self.finished(store, sink, begun, Wrote::Stopped),
            Halt::Full(area) => self.finished(store, sink, begun, Wrote::Full(area)),
            Halt::Stray => self.finished(store, sink, begun, Wrote::Stray),
            Halt::Failed => {
                let Writing { text: _, rows } = self;
                rows.clear(store);
                Wrote::Failed
            }
        }
    }

    /// Gives the work area up and the sink what is gathered. `begun` says from then on whether the last byte written is no new line,
    /// where any was.
    pub fn finished<K: Sink>(
        self,
        store: &mut Store,
        sink: &mut K,
        begun: &mut bool,
        ended: Wrote,
    ) -> Wrote
        requires { ended ≢ Wrote.Failed }
        ensures failed { result ≡ Wrote.Failed → HasRisen (K.faults sink.old) (K.faults sink.new) }
        ensures never_falls { K.faults sink.old ≤ K.faults sink.new }
    {
        let Writing { text, rows } = self;
        rows.clear(store);
        match text.finish(sink, begun) {
            Ok(()) => ended,
            Err(_failed) => Wrote::Failed,
        }
    }
}
