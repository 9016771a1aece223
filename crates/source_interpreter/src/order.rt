//! The order of terms: variables, integers, atoms, compounds.

use crate::halt::Halt;
use crate::pair::{Pair, push_pairs};
use crate::terms::Terms;
use crate::value::{Compound, Value};
use aq_term::atom::Atom;
use aq_term::atoms::Atoms;
use std::cmp::Ordering;

/// How two terms stand to one another.
#[derive(Clone, Copy, Debug, PartialEq, Eq)]
pub enum Order {
    Less,
    /// The terms are identical.
    Equal,
    Greater,
    /// The order hangs on two distinct variables.
    Open,
}

impl Order {
    fn of(ordering: Ordering) -> Order {
        match ordering {
            Ordering::Less => Order::Less,
            Ordering::Equal => Order::Equal,
            Ordering::Greater => Order::Greater,
        }
    }

    /// This order, or where it is `Equal` another one.
    fn or(self, other: Order) -> Order {
        match self {
            Order::Equal => other,
            decided => decided,
        }
    }
}

/// The order of two terms as they stand.
pub fn compare(terms: &Terms, atoms: &Atoms, left: Value, right: Value) -> Result<Order, Halt> {
    let mut pairs = Vec::new(terms.alloc());
    pairs.push(Pair { left, right })?;
    for _ in 0..terms.most_visits() {
        let Some(pair) = pairs.pop() else {
            return Ok(Order::Equal);
        };
        let order = compare_pair(terms, atoms, pair, &mut pairs)?;
        if order != Order::Equal {
            return Ok(order);
        }
    }
    Err(Halt::Stopped)
}

/// The order of a pair; `Equal` for compounds of one functor says that it hangs on their arguments.
fn compare_pair(
    terms: &Terms,
    atoms: &Atoms,
    pair: Pair,
    pairs: &mut Vec<Pair>,
) -> Result<Order, Halt> {
    let left = terms.value_of(pair.left);
    let right = terms.value_of(pair.right);
    match (left, right) {
        (Value::Variable(number), Value::Variable(other)) => Ok(same_variable(number, other)),
        (Value::Integer(number), Value::Integer(other)) => Ok(Order::of(number.cmp(&other))),
        (Value::Atom(name), Value::Atom(other)) => Ok(compare_atoms(atoms, name, other)),
        (Value::Compound(compound), Value::Compound(other)) => {
            push_pairs_of_alike(terms, compound, other, pairs)?;
            Ok(compare_functors(atoms, compound, other))
        }
        _ => Ok(Order::of(rank(left).cmp(&rank(right)))),
    }
}

fn same_variable(number: usize, other: usize) -> Order {
    if number == other {
        Order::Equal
    } else {
        Order::Open
    }
}

/// The place of a kind of terms among the kinds.
fn rank(value: Value) -> u8 {
    match value {
        Value::Variable(_) => 0,
        Value::Integer(_) => 1,
        Value::Atom(_) => 2,
        Value::Compound(_) => 3,
    }
}

/// Atoms go by the codes of their characters, which is the order of their bytes.
fn compare_atoms(atoms: &Atoms, name: Atom, other: Atom) -> Order {
    let bytes = atoms.text_or_empty(name).as_bytes();
    Order::of(bytes.cmp(atoms.text_or_empty(other).as_bytes()))
}

fn compare_functors(atoms: &Atoms, compound: Compound, other: Compound) -> Order {
    Order::of(compound.arity.cmp(&other.arity)).or(compare_atoms(atoms, compound.name, other.name))
}

fn push_pairs_of_alike(
    terms: &Terms,
    compound: Compound,
    other: Compound,
    pairs: &mut Vec<Pair>,
) -> Result<(), Halt> {
    if compound.is_alike(other) {
        push_pairs(terms, compound, other, pairs)?;
    }
    Ok(())
}
