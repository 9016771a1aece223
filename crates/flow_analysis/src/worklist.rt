ghost use Rattle.std.specs.Prelude.{◌≡◌, ◌≤◌, ◌+◌, IfOk, IfSome, OnOk};

use crate::rise::Rise;
use aq_term::memory::Memory;
use std::alloc::Global;
use std::marker::Model;

/// The rises whose clauses are still to be taken, each once. Contracts see how many there are.
#[derive(Debug, Drop)]
pub struct Worklist {
    rises: Vec<Rise>,
    /// For each predicate whether the rise of its calls waits.
    calls: Vec<bool>,
    /// For each predicate whether the rise of its successes waits.
    successes: Vec<bool>,
}

impl Model for Worklist {
    ghost use Rattle.std.specs.Prelude.{ℕ, length};

    ghost Value = { ℕ };

    ghost view = { λ w. length w.rises.items };
}

impl Worklist {
    /// An empty list for so many predicates.
    pub fn new(alloc: Global, predicates: usize) -> Result<Worklist, Memory>
        ensures { IfOk result (λ w. w ≡ 0) }
    {
        Ok(Worklist {
            rises: Vec::new(alloc),
            calls: vec![in alloc; false; predicates]?,
            successes: vec![in alloc; false; predicates]?,
        })
    }

    /// Adds a rise, where it does not wait already.
    pub fn push(&mut self, rise: Rise) -> Result<(), Memory>
        ensures { OnOk result (self.new ≤ self.old + 1) }
    {
        if self.mark(rise, true) {
            return Ok(());
        }
        self.rises.push(rise)?;
        Ok(())
    }

    /// Takes the rise off that was added last.
    pub fn pop(&mut self) -> Option<Rise>
        ensures { IfSome result (λ rise. self.new + 1 ≡ self.old) }
    {
        let rise = self.rises.pop()?;
        self.mark(rise, false);
        Some(rise)
    }

    /// Notes whether a rise waits, and gives whether it did before.
    fn mark(&mut self, rise: Rise, waits: bool) -> bool
        ensures { self.new ≡ self.old }
    {
        match rise {
            Rise::Call(place) => mark_at(&mut self.calls, place, waits),
            Rise::Success(place) => mark_at(&mut self.successes, place, waits),
        }
    }
}

/// Sets the mark at a place, and gives what it was.
fn mark_at(marks: &mut Vec<bool>, place: usize, mark: bool) -> bool {
    match marks.get_mut(place) {
        Some(own) => {
            let before = *own;
            *own = mark;
            before
        }
        None => false,
    }
}
