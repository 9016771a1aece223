ghost use Rattle.std.specs.Prelude.{◌≡◌, ℤ, Ok};
ghost use Rattle.std.specs.Int.{cast_unsigned, w64};
ghost use Rattle.tag_word.specs.Tagged.{Tagged};
ghost use Rattle.machine_store.specs.Derefs.{Derefs};

use crate::compound::Compound;
use crate::halt::Halt;
use aq_term::atom::Atom;
use machine_store::store::Store;
use tag_word::tag::Tag;
use tag_word::word::Word;

/// What a word stands for, as far as one look tells.
#[derive(Clone, Copy)]
pub enum Shape {
    /// An unbound cell, by its heap index.
    Variable(u64),
    Integer(i64),
    Atom(Atom),
    /// A compound or a list cell.
    Compound(Compound),
}

impl Shape {
    /// The word that stands for it, which is no reference unless it is a variable.
    pub fn word(&self) -> Word {
        match self {
            Shape::Variable(cell) => Word::of(Tag::Ref, *cell),
            Shape::Integer(value) => Word::of_int(*value),
            Shape::Atom(name) => atom_word(*name),
            Shape::Compound(compound) => compound.word,
        }
    }
}

/// What a word stands for, once references are followed. `Stray` is where it stands for no term: this is the one place of that
/// test, beside the reads of cells past the heap.
pub fn shape_of(store: &Store, word: Word) -> Result<Shape, Halt>
    ensures { (target : Tagged) (value : ℤ) → Derefs store.now.heap word target → result ≡ Ok (Shape.Integer value)
        → target.value ≡ cast_unsigned w64 value }
{
    let Some(word) = store.deref(word) else {
        return Err(Halt::Stray);
    };
    match word.tag() {
        Tag::Ref => Ok(Shape::Variable(word.value())),
        Tag::Int => Ok(Shape::Integer(integer_of(word))),
        Tag::Atm => match atom_of(word) {
            Some(name) => Ok(Shape::Atom(name)),
            None => Err(Halt::Stray),
        },
        Tag::Lst => Ok(Shape::Compound(Compound::of_list(word.value()))),
        Tag::Str => match Compound::of_structure(store, word.value()) {
            Some(compound) => Ok(Shape::Compound(compound)),
            None => Err(Halt::Stray),
        },
        _ => Err(Halt::Stray),
    }
}

/// The integer of a word of the tag `int`.
fn integer_of(word: Word) -> i64
    ensures { word.value ≡ cast_unsigned w64 result }
{
    word.value().cast_signed()
}

/// The atom that a word is.
pub fn atom_of(word: Word) -> Option<Atom> {
    if word.tag() != Tag::Atm || word.value() > u32::MAX as u64 {
        return None;
    }
    Some(Atom {
        number: word.value() as u32,
    })
}

/// The word of an atom.
pub fn atom_word(name: Atom) -> Word {
    Word::of(Tag::Atm, name.number as u64)
}
