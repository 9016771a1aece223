use crate::halt::Halt;
use crate::reads::cell_at;
use aq_term::atom::Atom;
use machine_store::full::Full;
use machine_store::store::Store;
use tag_word::tag::Tag;
use tag_word::word::Word;

/// A compound or a list cell on the heap.
#[derive(Clone, Copy)]
pub struct Compound {
    /// Its name, which is `'.'` for a list cell.
    pub name: Atom,
    /// How many arguments it has, 1 to 255.
    pub arity: u8,
    /// The word that stands for it.
    pub word: Word,
    /// The heap index of its first argument, which the others follow.
    first: u64,
}

/// How many values an arity has in the word of a functor.
const ARITIES: u64 = 256;

/// The place of the tail among a list cell's arguments.
pub const TAIL: u64 = 1;

impl Compound {
    /// The list cell whose head is at this heap index.
    pub fn of_list(head: u64) -> Compound {
        Compound {
            name: Atom::LIST,
            arity: 2,
            word: Word::of(Tag::Lst, head),
            first: head,
        }
    }

    /// The compound whose functor is at this heap index, or none where no functor is there.
    pub fn of_structure(store: &Store, at: u64) -> Option<Compound> {
        let functor = store.cell(at)?;
        if functor.tag() != Tag::Fun {
            return None;
        }
        let name = functor.value() / ARITIES;
        if name > u32::MAX as u64 {
            return None;
        }
        Some(Compound {
            name: Atom {
                number: name as u32,
            },
            arity: (functor.value() % ARITIES) as u8,
            word: Word::of(Tag::Str, at),
            first: at.saturating_add(1),
        })
    }

    /// Whether it is a list cell.
    pub fn is_list(&self) -> bool {
        self.name == Atom::LIST && self.arity == 2
    }

    /// Makes a compound, or a list cell for `'.'` with two arguments, at the heap's end; each argument is a new variable.
    pub fn grow(store: &mut Store, name: Atom, arity: u8) -> Result<Compound, Full> {
        let at = store.heap_len();
        let is_list = name == Atom::LIST && arity == 2;
        if !is_list {
            let functor = name.number as u64 * ARITIES + arity as u64;
            store.push_heap(Word::of(Tag::Fun, functor))?;
        }
        let first = store.heap_len();
        for _ in 0..arity {
            new_variable(store)?;
        }
        let tag = if is_list { Tag::Lst } else { Tag::Str };
        Ok(Compound {
            name,
            arity,
            word: Word::of(tag, at),
            first,
        })
    }

    /// The heap index of an argument, counted from 0.
    pub fn argument_index(&self, place: u64) -> u64 {
        self.first.saturating_add(place)
    }

    /// The word of an argument, counted from 0, as it stands on the heap.
    pub fn argument(&self, store: &Store, place: u64) -> Result<Word, Halt> {
        cell_at(store, self.argument_index(place))
    }

    /// Makes this word an argument, counted from 0.
    pub fn set_argument(&self, store: &mut Store, place: u64, word: Word) -> Result<(), Halt> {
        store.set_cell(self.argument_index(place), word)?;
        Ok(())
    }
}

/// Makes a new variable at the heap's end and gives the word that stands for it.
pub fn new_variable(store: &mut Store) -> Result<Word, Full> {
    let variable = Word::of(Tag::Ref, store.heap_len());
    store.push_heap(variable)?;
    Ok(variable)
}
