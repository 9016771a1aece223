//! Terms on their way onto the heap. A compound's own cells come first, then those of its compound arguments from left to right, each
//! in the same way. Calls go as deep in the stack as the term, which is at most 4,096 deep where it was read, and take no memory.
ghost use Rattle.std.specs.Prelude.{◌≡◌};

use crate::layout::functor_words;
use crate::load_fault::LoadFault;
use crate::query::Query;
use aq_term::atom::Atom;
use aq_term::term::Term;
use machine_store::full::Full;
use machine_store::store::Store;
use tag_word::tag::Tag;
use tag_word::word::Word;

/// What the cell of an argument that is a variable begins with.
#[derive(Clone, Copy, Debug, PartialEq, Eq)]
pub enum Beginning {
    /// The variable is unbound.
    Unbound,
    /// The cell is a hole that the run fills.
    Hole,
}

/// Where the own cells of a term's variables are.
#[derive(Clone, Copy, Debug)]
pub struct OwnCells<'a> {
    /// For each variable, at its number, the place of its own cell, counted in words from `base`.
    pub places: &'a [u64],
    /// A heap index, in words.
    pub base: u64,
}

impl OwnCells<'_> {
    /// The heap index of a variable's own cell. A variable that is not listed has its own cell wherever it stands, at `here`.
    fn of(&self, number: u32, here: u64) -> u64 {
        match self.places.get(number as usize) {
            Some(place) => self.base.saturating_add(*place),
            None => here,
        }
    }
}

/// Puts the cells of an argument of the query at the heap's end and answers its word. `base` is the heap index of the query's
/// first word; the arguments are loaded in their order. An argument that is a variable takes a cell at its first occurrence in the
/// query, with this beginning.
pub fn load_argument(
    store: &mut Store,
    query: &Query,
    base: u64,
    term: &Term,
    beginning: Beginning,
) -> Result<Word, LoadFault> {
    let own = OwnCells {
        places: query.cells.as_slice(),
        base,
    };
    match term {
        Term::Var(number) => load_variable(store, &own, *number, beginning),
        _ => load_term(store, &own, term),
    }
}

/// The word of a variable that is an argument of a query, with its own cell made where it is not yet there.
fn load_variable(
    store: &mut Store,
    own: &OwnCells<'_>,
    number: u32,
    beginning: Beginning,
) -> Result<Word, LoadFault> {
    let end = store.heap_len();
    let cell = own.of(number, end);
    if cell == end {
        store.push_heap(beginning_word(beginning, cell))?;
    }
    Ok(Word::of(Tag::Ref, cell))
}

fn beginning_word(beginning: Beginning, cell: u64) -> Word {
    match beginning {
        Beginning::Unbound => Word::of(Tag::Ref, cell),
        Beginning::Hole => Word::of(Tag::Hol, 0),
    }
}

/// Puts the cells of a term without variables at the heap's end and answers its word. A constant takes none.
pub fn load_ground(store: &mut Store, term: &Term) -> Result<Word, LoadFault> {
    let own = OwnCells {
        places: &[],
        base: 0,
    };
    load_term(store, &own, term)
}

/// Puts the cells of a term at the heap's end and answers its word. A constant takes none, and neither does a variable that stands
/// alone.
#[tactic(auto, using(source_program::proofs::TermParts::argument_falls))]
pub fn load_term(store: &mut Store, own: &OwnCells<'_>, term: &Term) -> Result<Word, LoadFault> {
    let end = store.heap_len();
    let Term::Compound(name, args) = term else {
        return Ok(own_word(own, term, end));
    };
    let args = args.as_slice();
    push_functor(store, *name, args.len())?;
    let first = store.heap_len();
    push_own_words(store, own, args)?;
    for (place, argument) in args.iter().enumerate() {
        if let Term::Compound(_, _) = argument {
            let word = load_term(store, own, argument)?;
            store.set_cell(first.saturating_add(place as u64), word)?;
        }
    }
    Ok(compound_word(*name, args.len(), end))
}

/// Puts a compound's functor at the heap's end, nothing where it is a list cell.
fn push_functor(store: &mut Store, name: Atom, arity: usize) -> Result<(), Full> {
    if functor_words(name, arity) == 0 {
        return Ok(());
    }
    store.push_heap(Word::of(Tag::Fun, functor_value(name, arity)))
}

/// 256 times the name's number, plus the arity.
fn functor_value(name: Atom, arity: usize) -> u64 {
    u64::from(name.number) * 256 + (arity as u64 & 0xff)
}

/// Puts a word for each argument at the heap's end; those of compounds are put right later.
fn push_own_words(store: &mut Store, own: &OwnCells<'_>, args: &[Term]) -> Result<(), Full> {
    for argument in args {
        let here = store.heap_len();
        store.push_heap(own_word(own, argument, here))?;
    }
    Ok(())
}

/// The word of a constant or of a variable that stands in this cell, and a hole for a compound.
fn own_word(own: &OwnCells<'_>, term: &Term, here: u64) -> Word {
    match term {
        Term::Var(number) => Word::of(Tag::Ref, own.of(*number, here)),
        Term::Int(value) => Word::of_int(*value),
        Term::Atom(name) => Word::of(Tag::Atm, u64::from(name.number)),
        Term::Compound(_, _) => Word::of(Tag::Hol, 0),
    }
}

/// The word of a compound whose cells begin at this heap index.
fn compound_word(name: Atom, arity: usize, at: u64) -> Word {
    if functor_words(name, arity) == 0 {
        Word::of(Tag::Lst, at)
    } else {
        Word::of(Tag::Str, at)
    }
}
