ghost use Rattle.std.specs.Prelude.{◌≤◌};

use crate::compound::{Compound, TAIL};
use crate::halt::Halt;
use crate::outcome::{Outcome, outcome_of};
use crate::shape::{Shape, atom_word, shape_of};
use crate::visit::visit;
use aq_term::atom::Atom;
use aq_term::atoms::Atoms;
use machine_store::store::Store;
use tag_word::word::Word;

/// The most elements of a list that stands for a compound: its name and 255 arguments.
const MOST_ELEMENTS: u64 = 256;

/// `T =.. L` (ISO/IEC 13211-1, 8.5.3) without its unification. Where T is no variable, `Made` gives the new list of its name and arguments,
/// for L; each list cell is made with its visit. Where T is one, `Made` gives the term of the list L, for T: each list cell of L is visited as
/// it is read, then the compound is made. T and L are the first two of `args`. Errors where T is a variable, the first that
/// holds, E being the first element:
///
/// - L a variable or a partial list: `instantiation_error`
/// - L no list: `type_error(list,L)`
/// - L empty: `domain_error(non_empty_list,[])`
/// - E a variable: `instantiation_error`
/// - one element, a compound: `type_error(atomic,E)`
/// - more elements, the first no atom: `type_error(atom,E)`
/// - more than 256 elements: `representation_error(max_arity)`
pub fn univ(store: &mut Store, _atoms: &Atoms, args: &[Word], left: &mut u64) -> Outcome
    ensures { left.new ≤ left.old }
{
    let [term, list, ..] = args else {
        return Outcome::Stray;
    };
    let answer = match shape_of(store, *term) {
        Ok(Shape::Variable(_)) => term_of_list(store, *list, left),
        Ok(Shape::Compound(compound)) => list_of_compound(store, compound, left),
        Ok(constant) => list_of_constant(store, constant, left),
        Err(halt) => Err(halt),
    };
    outcome_of(store, answer)
}

fn list_of_constant(store: &mut Store, constant: Shape, left: &mut u64) -> Result<Outcome, Halt>
    ensures { left.new ≤ left.old }
{
    let list = new_element(store, constant.word(), left)?;
    Ok(Outcome::Made(list.word))
}

fn list_of_compound(store: &mut Store, compound: Compound, left: &mut u64) -> Result<Outcome, Halt>
    ensures { left.new ≤ left.old }
{
    let list = new_element(store, atom_word(compound.name), left)?;
    let mut last = list;
    'arguments: for place in 0..compound.arity {
        let word = compound.argument(store, place as u64)?;
        let argument = shape_of(store, word)?.word();
        let element = new_element(store, argument, left)?;
        last.set_argument(store, TAIL, element.word)?;
        last = element;
    }
    Ok(Outcome::Made(list.word))
}

/// A new list of one element.
fn new_element(store: &mut Store, element: Word, left: &mut u64) -> Result<Compound, Halt>
    ensures { left.new ≤ left.old }
{
    visit(left)?;
    let list = Compound::grow(store, Atom::LIST, 2)?;
    list.set_argument(store, 0, element)?;
    list.set_argument(store, TAIL, atom_word(Atom::NIL))?;
    Ok(list)
}

fn term_of_list(store: &mut Store, list: Word, left: &mut u64) -> Result<Outcome, Halt>
    ensures { left.new ≤ left.old }
{
    let length = length_of(store, list, left)?;
    let Shape::Compound(cell) = shape_of(store, list)? else {
        return Err(Halt::Domain {
            domain: Atom::NON_EMPTY_LIST,
            culprit: atom_word(Atom::NIL),
        });
    };
    let first = shape_of(store, cell.argument(store, 0)?)?;
    match first {
        Shape::Variable(_) => Err(Halt::Instantiation),
        Shape::Compound(_) if length == 1 => Err(Halt::wrong_kind(Atom::ATOMIC, first)),
        constant if length == 1 => Ok(Outcome::Made(constant.word())),
        Shape::Atom(name) => compound_of_list(store, name, length, cell),
        _ => Err(Halt::wrong_kind(Atom::ATOM, first)),
    }
}

/// What one look at the rest of a list tells.
#[derive(Clone, Copy)]
enum Rest {
    /// A list cell with this tail.
    Cell(Word),
    End,
    Variable,
    NoList,
}

fn rest_of(store: &Store, word: Word) -> Result<Rest, Halt> {
    match shape_of(store, word)? {
        Shape::Variable(_) => Ok(Rest::Variable),
        Shape::Atom(Atom::NIL) => Ok(Rest::End),
        Shape::Compound(cell) if cell.is_list() => Ok(Rest::Cell(cell.argument(store, TAIL)?)),
        _ => Ok(Rest::NoList),
    }
}

/// How many elements a list has, each of its cells being visited.
fn length_of(store: &Store, list: Word, left: &mut u64) -> Result<u64, Halt>
    ensures { left.new ≤ left.old }
{
    let mut length: u64 = 0;
    let mut rest = list;
    'cells: loop {
        match rest_of(store, rest)? {
            Rest::End => return Ok(length),
            Rest::Variable => return Err(Halt::Instantiation),
            Rest::NoList => return Err(Halt::wrong_kind(Atom::LIST_TYPE, shape_of(store, list)?)),
            Rest::Cell(tail) => {
                visit(left)?;
                length = length.saturating_add(1);
                rest = tail;
            }
        }
    }
}

/// The compound of this name whose arguments are the elements behind the first list cell.
fn compound_of_list(
    store: &mut Store,
    name: Atom,
    length: u64,
    list: Compound,
) -> Result<Outcome, Halt> {
    if length > MOST_ELEMENTS {
        return Err(Halt::MaxArity);
    }
    let arity = length.saturating_sub(1) as u8;
    let compound = Compound::grow(store, name, arity)?;
    let mut cell = list;
    for place in 0..arity {
        let rest = shape_of(store, cell.argument(store, TAIL)?)?;
        let Shape::Compound(next) = rest else {
            return Err(Halt::Stray);
        };
        cell = next;
        let argument = shape_of(store, cell.argument(store, 0)?)?.word();
        compound.set_argument(store, place as u64, argument)?;
    }
    Ok(Outcome::Made(compound.word))
}
