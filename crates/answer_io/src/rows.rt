//! The work area while a term is written: what is pending, and which variables were met.
ghost use Rattle.std.specs.Prelude.{◌≡◌, ◌+◌, ◌≤◌, IfOk, IfErr, IfSome};
ghost use Rattle.answer_io.specs.Rise.{rise};

use crate::halt::{Halt, count_visit};
use crate::pending::Pending;
use machine_store::full::Full;
use machine_store::store::Store;
use machine_store::stray::Stray;
use tag_word::tag::Tag;
use tag_word::word::Word;

/// The words of a row.
const ROW: u64 = 3;

/// Rows of the work area from an index on. A row has a word for a variable that was met, at its number, and two for something that is
/// pending; the two have nothing to do with each other. A visit adds at most one of either, so V visits take at most 3V words.
#[derive(Debug, Drop)]
pub struct Rows {
    base: u64,
    variables: u64,
    pending: u64,
}

impl Rows {
    /// No row, where the work area has `base` words.
    pub fn new(base: u64) -> Rows {
        Rows {
            base,
            variables: 0,
            pending: 0,
        }
    }

    /// Gives the rows up.
    pub fn clear(self, store: &mut Store) {
        store.cut_work(self.base);
    }

    /// The index in the work area of the row with this number.
    fn row(&self, number: u64) -> u64 {
        self.base.saturating_add(number.saturating_mul(ROW))
    }

    /// Adds what is pending before all else.
    pub fn push(&mut self, store: &mut Store, pending: Pending) -> Result<(), Halt>
        ensures { IfErr result (λ e. rise e ≡ 0) }
    {
        let (first, second) = pending.words();
        let row = self.row(self.pending);
        reach(store, row.saturating_add(ROW))?;
        store.set_work(row.saturating_add(1), first)?;
        store.set_work(row.saturating_add(2), second)?;
        self.pending = self.pending.saturating_add(1);
        Ok(())
    }

    /// Takes what is pending before all else.
    pub fn pop(&mut self, store: &Store) -> Result<Option<Pending>, Stray>
        ensures { IfOk result (λ found. IfSome found (λ _. self.new.pending + 1 ≡ self.old.pending)) }
    {
        if self.pending == 0 {
            return Ok(None);
        }
        self.pending -= 1;
        let row = self.row(self.pending);
        let Some(first) = store.work(row.saturating_add(1)) else {
            return Err(Stray);
        };
        let Some(second) = store.work(row.saturating_add(2)) else {
            return Err(Stray);
        };
        match Pending::of_words(first, second) {
            Some(pending) => Ok(Some(pending)),
            None => Err(Stray),
        }
    }

    /// The number of the variable with this own cell: its place among the variables in order of first occurrence. It is compared
    /// with the earlier ones in this order, up to the equal one, each a visit.
    pub fn number(&mut self, store: &mut Store, left: &mut u64, cell: u64) -> Result<u64, Halt>
        ensures left { left.new ≤ left.old }
        ensures failed { IfErr result (λ e. rise e ≡ 0) }
    {
        for number in 0..self.variables {
            count_visit(left)?;
            let Some(word) = store.work(self.row(number)) else {
                return Err(Halt::Stray);
            };
            if word.value() == cell {
                return Ok(number);
            }
        }
        let number = self.variables;
        self.add(store, cell)?;
        Ok(number)
    }

    /// Adds a variable behind the others.
    fn add(&mut self, store: &mut Store, cell: u64) -> Result<(), Halt>
        ensures { IfErr result (λ e. rise e ≡ 0) }
    {
        let row = self.row(self.variables);
        reach(store, row.saturating_add(ROW))?;
        store.set_work(row, Word::of(Tag::Ref, cell))?;
        self.variables = self.variables.saturating_add(1);
        Ok(())
    }
}

/// Gives the work area at least this many words.
fn reach(store: &mut Store, words: u64) -> Result<(), Full> {
    for _ in store.work_len()..words {
        store.push_work(Word::of(Tag::Hol, 0))?;
    }
    Ok(())
}
