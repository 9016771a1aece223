ghost use Rattle.std.specs.Prelude.{◌≡◌, ◌≢◌, ◌+◌, ◌≤◌, Some, pos, slice_get, IfOk, OnOk};
ghost use Rattle.tag_word.specs.Tagged.{Tagged};
ghost use Rattle.machine_store.specs.Derefs.{Derefs};

use crate::compound::Compound;
use crate::halt::Halt;
use crate::outcome::{Outcome, outcome_of};
use crate::shape::{Shape, atom_word, shape_of};
use crate::visit::visit_each;
use aq_term::atom::Atom;
use aq_term::atoms::Atoms;
use machine_store::store::Store;
use tag_word::word::Word;

/// The most arguments of a compound.
const MOST_ARGUMENTS: i64 = 255;

/// `functor(T,N,A)` (ISO/IEC 13211-1, 8.5.1) without its unifications. Where T is no variable, `MadeTwo` gives its name and its arity,
/// of a constant itself and 0. Where it is one, `Made` gives the term for it: N for A = 0, else a new compound of A new
/// variables, which is made before each of them is visited. Errors where T is a variable, the first that holds:
///
/// - N or A a variable: `instantiation_error`
/// - N a compound: `type_error(atomic,N)`
/// - A no integer: `type_error(integer,A)`
/// - A below 0: `domain_error(not_less_than_zero,A)`
/// - A above 255: `representation_error(max_arity)`
/// - A above 0 and N an integer: `type_error(atom,N)`
pub fn functor(store: &mut Store, _atoms: &Atoms, args: &[Word], left: &mut u64) -> Outcome
    ensures falls { left.new ≤ left.old }
    ensures made { (word arity count : Tagged) → result ≡ Outcome.Made word → slice_get args.now 2 ≡ Some arity
        → Derefs store.old.heap arity count → left.new + count.value ≡ left.old }
    ensures made_two { (name arity : Tagged) → result ≡ Outcome.MadeTwo name arity → left.new ≡ left.old }
{
    let [term, name, arity, ..] = args else {
        return Outcome::Stray;
    };
    let answer = match shape_of(store, *term) {
        Ok(Shape::Variable(_)) => match new_term(store, *name, *arity, left) {
            Ok(word) => Ok(Outcome::Made(word)),
            Err(halt) => Err(halt),
        },
        Ok(shape) => Ok(name_and_arity(shape)),
        Err(halt) => Err(halt),
    };
    outcome_of(store, answer)
}

fn name_and_arity(shape: Shape) -> Outcome
    ensures { (word : Tagged) → result ≢ Outcome.Made word }
{
    match shape {
        Shape::Compound(compound) => Outcome::MadeTwo(
            atom_word(compound.name),
            Word::of_int(compound.arity as i64),
        ),
        constant => Outcome::MadeTwo(constant.word(), Word::of_int(0)),
    }
}

fn new_term(store: &mut Store, name: Word, arity: Word, left: &mut u64) -> Result<Word, Halt>
    ensures falls { left.new ≤ left.old }
    ensures visits { (count : Tagged) → Derefs store.old.heap arity count
        → OnOk result (left.new + count.value ≡ left.old) }
{
    let name = shape_of(store, name)?;
    let arity = shape_of(store, arity)?;
    let arity = wanted_arity(name, arity)?;
    if arity == 0 {
        return Ok(name.word());
    }
    let Shape::Atom(name) = name else {
        return Err(Halt::wrong_kind(Atom::ATOM, name));
    };
    let compound = Compound::grow(store, name, arity)?;
    visit_each(left, arity as u64)?;
    Ok(compound.word)
}

/// The number of arguments that is asked for, 0 to 255, or the first error that holds but for the last.
fn wanted_arity(name: Shape, arity: Shape) -> Result<u8, Halt>
    ensures { IfOk result (λ count. arity ≡ Shape.Integer (pos count)) }
{
    let arity = match (name, arity) {
        (Shape::Variable(_), _) | (_, Shape::Variable(_)) => {
            return Err(Halt::Instantiation);
        }
        (Shape::Compound(_), _) => return Err(Halt::wrong_kind(Atom::ATOMIC, name)),
        (_, Shape::Integer(value)) => value,
        _ => return Err(Halt::wrong_kind(Atom::INTEGER, arity)),
    };
    if arity < 0 {
        return Err(Halt::Domain {
            domain: Atom::NOT_LESS_THAN_ZERO,
            culprit: Word::of_int(arity),
        });
    }
    if arity > MOST_ARGUMENTS {
        return Err(Halt::MaxArity);
    }
    Ok(arity as u8)
}
