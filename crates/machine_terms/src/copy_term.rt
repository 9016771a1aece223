ghost use Rattle.std.specs.Prelude.{◌≤◌};

use crate::compound::{Compound, new_variable};
use crate::halt::Halt;
use crate::outcome::{Outcome, outcome_of};
use crate::reads::{cell_at, work_at};
use crate::shape::{Shape, shape_of};
use crate::visit::visit;
use aq_term::atoms::Atoms;
use machine_store::store::Store;
use tag_word::tag::Tag;
use tag_word::word::Word;

/// `copy_term(T,C)` (ISO/IEC 13211-1, 8.5.4) without its unification: `Made` gives a copy of T, the first of `args`, with new variables and each compound made anew.
/// Each node of T is visited, and for each variable each earlier one with which it is compared, in order of first occurrence
/// up to the equal one. A compound is made with its visit. A variable's own cell is the lowest of its cells in the copy, and
/// the others hold references to it.
pub fn copy_term(store: &mut Store, _atoms: &Atoms, args: &[Word], left: &mut u64) -> Outcome
    ensures { left.new ≤ left.old }
{
    let [term, ..] = args else {
        return Outcome::Stray;
    };
    let base = store.work_len();
    let copy = copy_of(store, *term, left);
    store.cut_work(base);
    let answer = match copy {
        Ok(word) => Ok(Outcome::Made(word)),
        Err(halt) => Err(halt),
    };
    outcome_of(store, answer)
}

fn copy_of(store: &mut Store, term: Word, left: &mut u64) -> Result<Word, Halt>
    ensures { left.new ≤ left.old }
{
    visit(left)?;
    match shape_of(store, term)? {
        Shape::Variable(_) => Ok(new_variable(store)?),
        Shape::Compound(compound) => copy_compound(store, compound, left),
        constant => Ok(constant.word()),
    }
}

fn copy_compound(store: &mut Store, compound: Compound, left: &mut u64) -> Result<Word, Halt>
    ensures { left.new ≤ left.old }
{
    let begin = store.heap_len();
    let mut copying = Copying::new();
    let copy = copying.open(store, compound)?;
    'arguments: while let Some(argument) = copying.next_argument(store)? {
        visit(left)?;
        copying.copy_argument(store, argument, left)?;
    }
    settle(store, begin)?;
    Ok(copy.word)
}

/// A copy that is being made. What it knows stands in the work area in records that are linked by their indices, since both rows
/// grow there: the compounds whose arguments are still to be copied, the innermost first, and the variables met, the first
/// first.
#[derive(Drop)]
struct Copying {
    compound: Option<u64>,
    first_variable: Option<u64>,
    last_variable: Option<u64>,
}

/// The record of a compound: the cell of its next argument, the cell for that argument's copy, how many arguments are left, and
/// the record of the compound around it.
const COMPOUND_WORDS: u64 = 4;

const SOURCE: u64 = 0;

const TARGET: u64 = 1;

const COUNT: u64 = 2;

const OUTER: u64 = 3;

/// The record of a variable: its cell, its own cell in the copy, and the record of the variable met next.
const ORIGINAL: u64 = 0;

const COPY: u64 = 1;

const LATER: u64 = 2;

/// An argument that is to be copied: its word, and the cell for its copy.
#[derive(Clone, Copy)]
struct Argument {
    word: Word,
    target: u64,
}

impl Copying {
    fn new() -> Copying {
        Copying {
            compound: None,
            first_variable: None,
            last_variable: None,
        }
    }

    /// Makes the copy of a compound, its arguments being new variables that wait for theirs.
    fn open(&mut self, store: &mut Store, compound: Compound) -> Result<Compound, Halt> {
        let record = store.work_len();
        store.push_work(index_word(compound.argument_index(0)))?;
        store.push_work(index_word(0))?;
        store.push_work(index_word(compound.arity as u64))?;
        store.push_work(link_word(self.compound))?;
        self.compound = Some(record);
        let copy = Compound::grow(store, compound.name, compound.arity)?;
        set_field(store, record, TARGET, index_word(copy.argument_index(0)))?;
        Ok(copy)
    }

    /// The next argument to be copied, or none where all are. A compound whose last argument is taken is left.
    fn next_argument(&mut self, store: &mut Store) -> Result<Option<Argument>, Halt> {
        let Some(record) = self.compound else {
            return Ok(None);
        };
        let source = field(store, record, SOURCE)?.value();
        let target = field(store, record, TARGET)?.value();
        let count = field(store, record, COUNT)?.value();
        if count <= 1 {
            self.compound = link_of(field(store, record, OUTER)?);
            if record.saturating_add(COMPOUND_WORDS) == store.work_len() {
                store.cut_work(record);
            }
        } else {
            set_field(store, record, SOURCE, index_word(source.saturating_add(1)))?;
            set_field(store, record, TARGET, index_word(target.saturating_add(1)))?;
            set_field(store, record, COUNT, index_word(count - 1))?;
        }
        let word = cell_at(store, source)?;
        Ok(Some(Argument { word, target }))
    }

    /// Copies an argument into its cell, which is a new variable. A compound's own arguments come next.
    fn copy_argument(
        &mut self,
        store: &mut Store,
        argument: Argument,
        left: &mut u64,
    ) -> Result<(), Halt>
        ensures { left.new ≤ left.old }
    {
        match shape_of(store, argument.word)? {
            Shape::Variable(cell) => self.copy_variable(store, cell, argument.target, left),
            Shape::Compound(compound) => {
                let copy = self.open(store, compound)?;
                store.set_cell(argument.target, copy.word)?;
                Ok(())
            }
            constant => {
                store.set_cell(argument.target, constant.word())?;
                Ok(())
            }
        }
    }

    fn copy_variable(
        &mut self,
        store: &mut Store,
        cell: u64,
        target: u64,
        left: &mut u64,
    ) -> Result<(), Halt>
        ensures { left.new ≤ left.old }
    {
        let Some(record) = self.find(store, cell, left)? else {
            return self.note(store, cell, target);
        };
        let own = field(store, record, COPY)?.value();
        if own < target {
            store.set_cell(target, Word::of(Tag::Ref, own))?;
        } else {
            store.set_cell(own, Word::of(Tag::Ref, target))?;
            set_field(store, record, COPY, index_word(target))?;
        }
        Ok(())
    }

    /// The record of a variable that was met before. Each variable with which it is compared is visited.
    fn find(&self, store: &Store, cell: u64, left: &mut u64) -> Result<Option<u64>, Halt>
        ensures { left.new ≤ left.old }
    {
        let mut next = self.first_variable;
        'variables: while let Some(record) = next {
            visit(left)?;
            if field(store, record, ORIGINAL)?.value() == cell {
                return Ok(Some(record));
            }
            next = link_of(field(store, record, LATER)?);
        }
        Ok(None)
    }

    /// Notes a variable that was not met before.
    fn note(&mut self, store: &mut Store, cell: u64, target: u64) -> Result<(), Halt> {
        let record = store.work_len();
        store.push_work(index_word(cell))?;
        store.push_work(index_word(target))?;
        store.push_work(link_word(None))?;
        match self.last_variable {
            Some(last) => set_field(store, last, LATER, link_word(Some(record)))?,
            None => self.first_variable = Some(record),
        }
        self.last_variable = Some(record);
        Ok(())
    }
}

/// Makes each reference in the copy name the variable's own cell. Each names a lower cell, whose own reference is right already.
fn settle(store: &mut Store, begin: u64) -> Result<(), Halt> {
    for cell in begin..store.heap_len() {
        let word = cell_at(store, cell)?;
        if word.tag() == Tag::Ref {
            let named = cell_at(store, word.value())?;
            store.set_cell(cell, named)?;
        }
    }
    Ok(())
}

fn field(store: &Store, record: u64, place: u64) -> Result<Word, Halt> {
    work_at(store, record.saturating_add(place))
}

fn set_field(store: &mut Store, record: u64, place: u64, word: Word) -> Result<(), Halt> {
    store.set_work(record.saturating_add(place), word)?;
    Ok(())
}

fn index_word(index: u64) -> Word {
    Word::of(Tag::Frm, index)
}

/// A link to a record, or to none.
fn link_word(record: Option<u64>) -> Word {
    match record {
        Some(record) => Word::of(Tag::Frm, record),
        None => Word::of(Tag::Hol, 0),
    }
}

fn link_of(word: Word) -> Option<u64> {
    match word.tag() {
        Tag::Frm => Some(word.value()),
        _ => None,
    }
}
