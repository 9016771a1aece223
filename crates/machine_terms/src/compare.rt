ghost use Rattle.std.specs.Prelude.{◌≤◌};

use crate::compound::Compound;
use crate::halt::Halt;
use crate::outcome::{Outcome, outcome_of};
use crate::reads::{cell_at, work_at};
use crate::shape::{Shape, atom_word, shape_of};
use crate::visit::visit;
use aq_term::atom::Atom;
use aq_term::atoms::Atoms;
use machine_store::store::Store;
use std::cmp::Ordering;
use tag_word::tag::Tag;
use tag_word::word::Word;

/// The order of two terms, the first two of `args`: `Made` gives `<`, `=` or `>`. Variables come first, then integers by value, atoms by their
/// characters' codes, and compounds by arity, name and arguments from left to right (compare ISO/IEC 13211-1, 7.2). Each pair is
/// visited that is compared until the outcome is known. Where the order hangs on two distinct variables, it raises
/// `instantiation_error`.
pub fn compare(store: &mut Store, atoms: &Atoms, args: &[Word], left: &mut u64) -> Outcome
    ensures { left.new ≤ left.old }
{
    let [first, second, ..] = args else {
        return Outcome::Stray;
    };
    let base = store.work_len();
    let order = order_of(store, atoms, *first, *second, left);
    store.cut_work(base);
    let answer = match order {
        Ok(order) => Ok(Outcome::Made(atom_word(order_name(order)))),
        Err(halt) => Err(halt),
    };
    outcome_of(store, answer)
}

fn order_name(order: Ordering) -> Atom {
    match order {
        Ordering::Less => Atom::LESS,
        Ordering::Equal => Atom::UNIFIES,
        Ordering::Greater => Atom::GREATER,
    }
}

/// What one look at a pair says of its order.
#[derive(Clone, Copy)]
enum PairOrder {
    Known(Ordering),
    /// That of the arguments, since both are compounds of one functor.
    OfArguments(Compound, Compound),
}

fn order_of(
    store: &mut Store,
    atoms: &Atoms,
    first: Word,
    second: Word,
    left: &mut u64,
) -> Result<Ordering, Halt>
    ensures { left.new ≤ left.old }
{
    let base = store.work_len();
    let mut pair = Some((first, second));
    'pairs: while let Some((first, second)) = pair {
        visit(left)?;
        match pair_order(store, atoms, first, second)? {
            PairOrder::Known(Ordering::Equal) => {}
            PairOrder::Known(order) => return Ok(order),
            PairOrder::OfArguments(first, second) => push_arguments(store, first, second)?,
        }
        pair = next_pair(store, base)?;
    }
    Ok(Ordering::Equal)
}

fn pair_order(store: &Store, atoms: &Atoms, first: Word, second: Word) -> Result<PairOrder, Halt> {
    let order = match (shape_of(store, first)?, shape_of(store, second)?) {
        (Shape::Variable(first), Shape::Variable(second)) => {
            if first != second {
                return Err(Halt::Instantiation);
            }
            Ordering::Equal
        }
        (Shape::Integer(first), Shape::Integer(second)) => first.cmp(&second),
        (Shape::Atom(first), Shape::Atom(second)) => atom_order(atoms, first, second),
        (Shape::Compound(first), Shape::Compound(second)) => {
            let order = functor_order(atoms, &first, &second);
            if order == Ordering::Equal {
                return Ok(PairOrder::OfArguments(first, second));
            }
            order
        }
        (first, second) => rank(&first).cmp(&rank(&second)),
    };
    Ok(PairOrder::Known(order))
}

/// The place of a kind of terms in the order.
fn rank(shape: &Shape) -> u8 {
    match shape {
        Shape::Variable(_) => 0,
        Shape::Integer(_) => 1,
        Shape::Atom(_) => 2,
        Shape::Compound(_) => 3,
    }
}

/// By the characters' codes, which are in the order of their bytes.
fn atom_order(atoms: &Atoms, first: Atom, second: Atom) -> Ordering {
    if first == second {
        return Ordering::Equal;
    }
    let first = atoms.text_or_empty(first);
    let second = atoms.text_or_empty(second);
    first.cmp(&second)
}

/// By arity, then by name.
fn functor_order(atoms: &Atoms, first: &Compound, second: &Compound) -> Ordering {
    let order = first.arity.cmp(&second.arity);
    if order != Ordering::Equal {
        return order;
    }
    atom_order(atoms, first.name, second.name)
}

/// The words of arguments that are still to be compared: the next one of each compound, and how many there are.
const PENDING_WORDS: u64 = 3;

fn push_arguments(store: &mut Store, first: Compound, second: Compound) -> Result<(), Halt> {
    store.push_work(Word::of(Tag::Ref, first.argument_index(0)))?;
    store.push_work(Word::of(Tag::Ref, second.argument_index(0)))?;
    store.push_work(Word::of(Tag::Bar, first.arity as u64))?;
    Ok(())
}

/// The next pair of arguments, or none where none is left above the base.
fn next_pair(store: &mut Store, base: u64) -> Result<Option<(Word, Word)>, Halt> {
    let Some(at) = store.work_len().checked_sub(PENDING_WORDS) else {
        return Ok(None);
    };
    if at < base {
        return Ok(None);
    }
    let first = work_at(store, at)?.value();
    let second = work_at(store, at + 1)?.value();
    let count = work_at(store, at + 2)?.value();
    if count <= 1 {
        store.cut_work(at);
    } else {
        store.set_work(at, Word::of(Tag::Ref, first.saturating_add(1)))?;
        store.set_work(at + 1, Word::of(Tag::Ref, second.saturating_add(1)))?;
        store.set_work(at + 2, Word::of(Tag::Bar, count - 1))?;
    }
    Ok(Some((cell_at(store, first)?, cell_at(store, second)?)))
}
