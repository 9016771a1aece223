ghost use Rattle.std.specs.Prelude.{◌≤◌};

use crate::halt::Halt;
use crate::outcome::{Outcome, outcome_of};
use crate::shape::{Shape, shape_of};
use aq_term::atom::Atom;
use aq_term::atoms::Atoms;
use machine_store::store::Store;
use tag_word::word::Word;

/// `arg(N,T,A)` (ISO/IEC 13211-1, 8.5.2) without its unification: `Made` gives argument N of T, counted from 1, and `Fails` is where there is
/// none. It takes no visit. N and T are the first two of `args`. Errors, the first that holds:
///
/// - N or T a variable: `instantiation_error`
/// - N no integer: `type_error(integer,N)`
/// - T no compound: `type_error(compound,T)`
/// - N below 0: `domain_error(not_less_than_zero,N)`
pub fn arg(store: &mut Store, _atoms: &Atoms, args: &[Word], _left: &mut u64) -> Outcome
    ensures { _left.new ≤ _left.old }
{
    let [number, term, ..] = args else {
        return Outcome::Stray;
    };
    let found = found_argument(store, *number, *term);
    outcome_of(store, found)
}

fn found_argument(store: &Store, number: Word, term: Word) -> Result<Outcome, Halt> {
    let number = shape_of(store, number)?;
    let term = shape_of(store, term)?;
    let number = match (number, term) {
        (Shape::Variable(_), _) | (_, Shape::Variable(_)) => {
            return Err(Halt::Instantiation);
        }
        (Shape::Integer(value), _) => value,
        _ => return Err(Halt::wrong_kind(Atom::INTEGER, number)),
    };
    let Shape::Compound(compound) = term else {
        return Err(Halt::wrong_kind(Atom::COMPOUND, term));
    };
    if number < 0 {
        return Err(Halt::Domain {
            domain: Atom::NOT_LESS_THAN_ZERO,
            culprit: Word::of_int(number),
        });
    }
    if number == 0 || number > compound.arity as i64 {
        return Ok(Outcome::Fails);
    }
    let word = compound.argument(store, (number - 1) as u64)?;
    Ok(Outcome::Made(shape_of(store, word)?.word()))
}
