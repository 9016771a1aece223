ghost use Rattle.std.specs.Prelude.{◌≤◌};

use crate::halt::Halt;
use crate::outcome::{Outcome, outcome_of};
use crate::shape::{Shape, shape_of};
use aq_term::atom::Atom;
use aq_term::atoms::Atoms;
use machine_store::store::Store;
use tag_word::word::Word;

/// The test of `put_char(C)` (ISO/IEC 13211-1, 8.12.3): `Made` gives the atom of one character whose text the machine then writes. It takes no visit.
/// C is the first of `args`. Errors, the first that holds:
///
/// - C a variable: `instantiation_error`
/// - C no atom of one character: `type_error(character,C)`
pub fn put_char(store: &mut Store, atoms: &Atoms, args: &[Word], _left: &mut u64) -> Outcome
    ensures { _left.new ≤ _left.old }
{
    let [character, ..] = args else {
        return Outcome::Stray;
    };
    let tested = tested_character(store, atoms, *character);
    outcome_of(store, tested)
}

fn tested_character(store: &Store, atoms: &Atoms, word: Word) -> Result<Outcome, Halt> {
    let shape = shape_of(store, word)?;
    match shape {
        Shape::Variable(_) => Err(Halt::Instantiation),
        Shape::Atom(name) if is_character(atoms.text_or_empty(name)) => {
            Ok(Outcome::Made(shape.word()))
        }
        _ => Err(Halt::wrong_kind(Atom::CHARACTER, shape)),
    }
}

/// Whether a text is one character long.
fn is_character(text: &str) -> bool {
    let mut characters = text.chars();
    characters.next().is_some() && characters.next().is_none()
}
