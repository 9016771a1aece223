//! Balls on their way to a catcher. A ball stands in cells that go when the catcher's heap comes back, so it is taken down in
//! the work area first, one item a node in the order of its visits, and its copy is made of that on the catcher's heap.
ghost use Rattle.std.specs.Prelude.{◌≡◌, ◌+◌, ◌<◌, ◌≤◌, ◌≢◌, IfOk, OnOk, OnErr, length};
ghost use Rattle.bam_machine.specs.Balls.{IsWithin};

use crate::halt::Halt;
use aq_base::area_name::AreaName;
use machine_store::caught::Caught;
use machine_store::store::Store;
use tag_word::tag::Tag;
use tag_word::word::Word;

/// How many values an arity has in the word of a functor.
const ARITIES: u64 = 256;

/// An item of a node begins with a word that tells its kind, and its other words follow:
///
/// - a constant: its own word
/// - a variable that was met before: the index of that variable's first item, tagged `bar`
/// - a variable at its first occurrence: a reference to its cell, and the item of the variable met next
/// - a list cell or a structure: a word tagged `lst`, or the functor's word; and then where its next argument is, how many
///   are left, and the item of the compound around it
const NEXT_VARIABLE: u64 = 1;

const NEXT_CELL: u64 = 1;

const COUNT: u64 = 2;

const OUTER: u64 = 3;

/// How many words the item of a compound has.
const COMPOUND_WORDS: u64 = 4;

/// Takes down a ball, gives back the innermost catcher's state without that catcher, and copies the ball onto its heap. Each
/// node is visited, and for each variable each earlier one with which it is compared; a compound's growth comes with its
/// visit. Answers the copy's word and what the catcher says.
pub fn copy_ball(
    store: &mut Store,
    registers: &mut [Word],
    ball: Word,
    heap_limit: u64,
    left: &mut u64,
) -> Result<(Word, Caught), Halt>
    ensures { IfOk result (λ copied. IsWithin store.new.heap copied.0) }
{
    let base = store.work_len();
    let mut taking = Taking {
        room: heap_limit.saturating_sub(store.caught_heap()),
        compound: None,
        first_variable: None,
        last_variable: None,
    };
    taking.take(store, ball, left)?;
    let caught = store.restore_catcher(registers)?;
    let mut making = Making {
        item: base,
        compound: None,
    };
    let copy = making.make(store)?;
    store.cut_work(base);
    Ok((copy, caught))
}

/// A ball that is being taken down.
#[derive(Drop)]
struct Taking {
    /// How many words the catcher's heap has room for.
    room: u64,
    /// The item of the compound whose arguments are taken down.
    compound: Option<u64>,
    /// The items of the first and of the last variable met.
    first_variable: Option<u64>,
    last_variable: Option<u64>,
}

impl Taking {
    /// Takes down a term.
    fn take(&mut self, store: &mut Store, term: Word, left: &mut u64) -> Result<(), Halt> {
        self.take_node(store, term, left)?;
        'arguments: while let Some(word) = self.next_argument(store)? {
            self.take_node(store, word, left)?;
        }
        Ok(())
    }

    /// Takes down a node.
    fn take_node(&mut self, store: &mut Store, word: Word, left: &mut u64) -> Result<(), Halt>
        ensures { OnOk result (left.new < left.old) }
    {
        visit(left)?;
        let word = store.deref(word).ok_or(Halt::Stray)?;
        match word.tag() {
            Tag::Atm | Tag::Int => Ok(store.push_work(word)?),
            Tag::Ref => self.take_variable(store, word, left),
            Tag::Lst => self.take_compound(store, Word::of(Tag::Lst, 0), word.value()),
            Tag::Str => self.take_structure(store, word.value()),
            _ => Err(Halt::Stray),
        }
    }

    fn take_structure(&mut self, store: &mut Store, index: u64) -> Result<(), Halt> {
        let functor = store.cell(index).ok_or(Halt::Stray)?;
        if functor.tag() != Tag::Fun {
            return Err(Halt::Stray);
        }
        self.take_compound(store, functor, index.saturating_add(1))
    }

    /// Takes down a compound whose first argument stands in a cell. Its arguments come next.
    fn take_compound(&mut self, store: &mut Store, kind: Word, first: u64) -> Result<(), Halt> {
        let item = store.work_len();
        let arity = arity_of(kind);
        store.push_work(kind)?;
        store.push_work(index_word(first))?;
        store.push_work(index_word(arity))?;
        store.push_work(link_word(self.compound))?;
        self.compound = Some(item);
        self.grow(arity.saturating_add(functor_words(kind)))
    }

    /// Counts words of the copy.
    fn grow(&mut self, words: u64) -> Result<(), Halt> {
        if words > self.room {
            return Err(Halt::Full(AreaName::Heap));
        }
        self.room -= words;
        Ok(())
    }

    /// The word of the next argument, or none where all are taken down.
    fn next_argument(&mut self, store: &mut Store) -> Result<Option<Word>, Halt> {
        match next_cell(store, &mut self.compound)? {
            Some(cell) => Ok(Some(store.cell(cell).ok_or(Halt::Stray)?)),
            None => Ok(None),
        }
    }

    fn take_variable(
        &mut self,
        store: &mut Store,
        variable: Word,
        left: &mut u64,
    ) -> Result<(), Halt>
        ensures { left.new ≤ left.old }
    {
        let item = store.work_len();
        if let Some(first) = self.find(store, variable, left)? {
            return Ok(store.push_work(Word::of(Tag::Bar, first))?);
        }
        store.push_work(variable)?;
        store.push_work(link_word(None))?;
        match self.last_variable {
            Some(last) => set_field(store, last, NEXT_VARIABLE, link_word(Some(item)))?,
            None => self.first_variable = Some(item),
        }
        self.last_variable = Some(item);
        Ok(())
    }

    /// The item of a variable that was met before. Each variable with which it is compared is visited.
    fn find(&self, store: &Store, variable: Word, left: &mut u64) -> Result<Option<u64>, Halt>
        ensures { left.new ≤ left.old }
    {
        let mut next = self.first_variable;
        'variables: while let Some(item) = next {
            visit(left)?;
            if field(store, item, 0)?.is(variable) {
                return Ok(Some(item));
            }
            next = link_of(field(store, item, NEXT_VARIABLE)?);
        }
        Ok(None)
    }
}

/// A copy that is being made of the items of a ball.
#[derive(Drop)]
struct Making {
    /// The index of the next item.
    item: u64,
    /// The item of the compound whose arguments are made.
    compound: Option<u64>,
}

impl Making {
    /// Makes the copy, and answers its word.
    fn make(&mut self, store: &mut Store) -> Result<Word, Halt>
        ensures { IfOk result (λ word. IsWithin store.new.heap word) }
    {
        let begin = store.heap_len();
        let copy = self.make_whole(store)?;
        let end = store.work_len();
        // Each turn takes an item.
        'items: for _ in self.item..end {
            if self.item >= end {
                break;
            }
            let cell = next_cell(store, &mut self.compound)?.ok_or(Halt::Stray)?;
            self.make_argument(store, cell)?;
        }
        settle(store, begin)?;
        Ok(copy)
    }

    /// Makes what no compound is around.
    fn make_whole(&mut self, store: &mut Store) -> Result<Word, Halt>
        ensures { IfOk result (λ word. IsWithin store.new.heap word) }
    {
        let word = field(store, self.item, 0)?;
        match word.tag() {
            Tag::Lst | Tag::Fun => self.make_compound(store, word),
            Tag::Ref => {
                self.item = self.item.saturating_add(2);
                Ok(new_variable(store)?)
            }
            Tag::Atm | Tag::Int => {
                self.item = self.item.saturating_add(1);
                Ok(word)
            }
            _ => Err(Halt::Stray),
        }
    }

    /// Makes the next item in a cell, which is a new variable.
    fn make_argument(&mut self, store: &mut Store, cell: u64) -> Result<(), Halt>
        ensures { length store.old.heap ≤ length store.new.heap }
    {
        let item = self.item;
        let word = field(store, item, 0)?;
        match word.tag() {
            Tag::Lst | Tag::Fun => {
                let compound = self.make_compound(store, word)?;
                store.set_cell(cell, compound)?;
            }
            Tag::Ref => {
                self.item = item.saturating_add(2);
                set_field(store, item, 0, index_word(cell))?;
            }
            Tag::Bar => {
                self.item = item.saturating_add(1);
                make_again(store, word.value(), cell)?;
            }
            _ => {
                self.item = item.saturating_add(1);
                store.set_cell(cell, word)?;
            }
        }
        Ok(())
    }

    /// Makes a compound with new variables as arguments, which come next.
    fn make_compound(&mut self, store: &mut Store, kind: Word) -> Result<Word, Halt>
        ensures grows { length store.old.heap ≤ length store.new.heap }
        ensures within { IfOk result (λ word. word.value < length store.new.heap) }
    {
        let item = self.item;
        let arity = arity_of(kind);
        let index = store.heap_len();
        if kind.tag() == Tag::Fun {
            store.push_heap(kind)?;
        }
        let first = store.heap_len();
        'arguments: for _ in 0..arity {
            new_variable(store)?;
        }
        set_field(store, item, NEXT_CELL, index_word(first))?;
        set_field(store, item, COUNT, index_word(arity))?;
        self.compound = Some(item);
        self.item = item.saturating_add(COMPOUND_WORDS);
        Ok(compound_word(kind, index))
    }
}

/// The word of a compound of this kind whose cells begin at an index.
fn compound_word(kind: Word, index: u64) -> Word
    ensures { result.value ≡ index }
{
    match kind.tag() {
        Tag::Fun => Word::of(Tag::Str, index),
        _ => Word::of(Tag::Lst, index),
    }
}

/// Makes a cell that of a variable met before. Of a variable's cells the lowest is its own.
fn make_again(store: &mut Store, first: u64, cell: u64) -> Result<(), Halt>
    ensures { length store.new.heap ≡ length store.old.heap }
{
    let own = field(store, first, 0)?.value();
    if own < cell {
        store.set_cell(cell, Word::of(Tag::Ref, own))?;
    } else {
        store.set_cell(own, Word::of(Tag::Ref, cell))?;
        set_field(store, first, 0, index_word(cell))?;
    }
    Ok(())
}

/// Makes each reference in the copy name the variable's own cell. Each names a lower cell, whose own reference is right
/// already.
fn settle(store: &mut Store, begin: u64) -> Result<(), Halt>
    ensures { length store.new.heap ≡ length store.old.heap }
{
    'cells: for cell in begin..store.heap_len() {
        let word = store.cell(cell).ok_or(Halt::Stray)?;
        if word.tag() == Tag::Ref {
            let named = store.cell(word.value()).ok_or(Halt::Stray)?;
            store.set_cell(cell, named)?;
        }
    }
    Ok(())
}

/// The cell of the next argument of a compound, which is left with its last one, or none without a compound.
fn next_cell(store: &mut Store, compound: &mut Option<u64>) -> Result<Option<u64>, Halt>
    ensures { store.new.heap ≡ store.old.heap }
{
    let Some(item) = *compound else {
        return Ok(None);
    };
    let cell = field(store, item, NEXT_CELL)?.value();
    let count = field(store, item, COUNT)?.value();
    if count <= 1 {
        *compound = link_of(field(store, item, OUTER)?);
    } else {
        set_field(store, item, NEXT_CELL, index_word(cell.saturating_add(1)))?;
        set_field(store, item, COUNT, index_word(count - 1))?;
    }
    Ok(Some(cell))
}

/// How many arguments a compound of this kind has.
fn arity_of(kind: Word) -> u64
    ensures { kind.tag ≢ Tag.Fun → result ≡ 2 }
{
    match kind.tag() {
        Tag::Fun => kind.value() % ARITIES,
        _ => 2,
    }
}

/// How many words a compound of this kind takes beside its arguments.
fn functor_words(kind: Word) -> u64 {
    match kind.tag() {
        Tag::Fun => 1,
        _ => 0,
    }
}

/// Makes a new variable at the heap's end.
fn new_variable(store: &mut Store) -> Result<Word, Halt>
    ensures grows { OnOk result (length store.new.heap ≡ length store.old.heap + 1) }
    ensures same { OnErr result (store.new.heap ≡ store.old.heap) }
    ensures named { IfOk result (λ word. word.value ≡ length store.old.heap) }
{
    let variable = Word::of(Tag::Ref, store.heap_len());
    store.push_heap(variable)?;
    Ok(variable)
}

/// Counts a visit.
fn visit(left: &mut u64) -> Result<(), Halt>
    ensures counted { OnOk result (left.new + 1 ≡ left.old) }
    ensures falls { left.new ≤ left.old }
{
    if *left == 0 {
        return Err(Halt::OutOfSteps);
    }
    *left -= 1;
    Ok(())
}

fn field(store: &Store, item: u64, place: u64) -> Result<Word, Halt> {
    store.work(item.saturating_add(place)).ok_or(Halt::Stray)
}

fn set_field(store: &mut Store, item: u64, place: u64, word: Word) -> Result<(), Halt>
    ensures { store.new.heap ≡ store.old.heap }
{
    store.set_work(item.saturating_add(place), word)?;
    Ok(())
}

fn index_word(index: u64) -> Word {
    Word::of(Tag::Frm, index)
}

/// A link to an item, or to none.
fn link_word(item: Option<u64>) -> Word {
    match item {
        Some(item) => Word::of(Tag::Frm, item),
        None => Word::of(Tag::Hol, 0),
    }
}

fn link_of(word: Word) -> Option<u64> {
    match word.tag() {
        Tag::Frm => Some(word.value()),
        _ => None,
    }
}
