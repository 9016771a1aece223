//! What cells of the heap hold, where they hold what a term has there.
ghost use Rattle.std.specs.Prelude.{◌≡◌, IfErr};

use crate::halt::Halt;
use aq_term::atom::Atom;
use aq_term::functor::Functor;
use machine_store::store::Store;
use tag_word::tag::Tag;
use tag_word::word::Word;

/// The word of the cell so many words behind a heap index.
pub fn word_at(store: &Store, at: u64, words: u64) -> Result<Word, Halt>
    ensures { IfErr result (λ e. e ≡ Halt.Stray) }
{
    match store.cell(at.saturating_add(words)) {
        Some(word) => Ok(word),
        None => Err(Halt::Stray),
    }
}

/// The functor in the cell at a heap index.
pub fn functor_at(store: &Store, at: u64) -> Result<Functor, Halt>
    ensures { IfErr result (λ e. e ≡ Halt.Stray) }
{
    let word = word_at(store, at, 0)?;
    if word.tag() != Tag::Fun {
        return Err(Halt::Stray);
    }
    match u32::try_from(word.value() / 256) {
        Ok(number) => Ok(Functor {
            name: Atom { number },
            arity: (word.value() % 256) as u8,
        }),
        Err(_too_great) => Err(Halt::Stray),
    }
}

/// The atom that a word is, if it is one.
pub fn atom_of(word: Word) -> Option<Atom> {
    if word.tag() != Tag::Atm {
        return None;
    }
    match u32::try_from(word.value()) {
        Ok(number) => Some(Atom { number }),
        Err(_too_great) => None,
    }
}
