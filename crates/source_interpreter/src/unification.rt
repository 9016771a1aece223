//! Textbook unification on whole terms, with the occurs check.

use crate::arguments::push_arguments;
use crate::halt::Halt;
use crate::pair::{Pair, push_pairs};
use crate::terms::Terms;
use crate::value::Value;

/// What a unification comes to. After anything but `Done` some variables may be bound.
#[derive(Clone, Copy, Debug, PartialEq, Eq)]
pub enum Unified {
    Done,
    Clash,
    /// A variable met a different term that contains it.
    Occurs,
}

/// Unifies two terms, the leftmost pair first.
pub fn unify(terms: &mut Terms, left: Value, right: Value) -> Result<Unified, Halt> {
    let mut pairs = Vec::new(terms.alloc());
    pairs.push(Pair { left, right })?;
    for _ in 0..terms.most_visits() {
        let Some(pair) = pairs.pop() else {
            return Ok(Unified::Done);
        };
        let unified = unify_pair(terms, pair, &mut pairs)?;
        if unified != Unified::Done {
            return Ok(unified);
        }
    }
    Err(Halt::Stopped)
}

/// Takes one pair: `Done` says that it is dropped, bound or replaced by the pairs of its arguments.
fn unify_pair(terms: &mut Terms, pair: Pair, pairs: &mut Vec<Pair>) -> Result<Unified, Halt> {
    let left = terms.value_of(pair.left);
    let right = terms.value_of(pair.right);
    match (left, right) {
        (Value::Variable(number), Value::Variable(other)) if number == other => Ok(Unified::Done),
        (Value::Variable(number), _) => bind_checked(terms, number, right),
        (_, Value::Variable(number)) => bind_checked(terms, number, left),
        (Value::Integer(number), Value::Integer(other)) if number == other => Ok(Unified::Done),
        (Value::Atom(name), Value::Atom(other)) if name == other => Ok(Unified::Done),
        (Value::Compound(compound), Value::Compound(other)) if compound.is_alike(other) => {
            push_pairs(terms, compound, other, pairs)?;
            Ok(Unified::Done)
        }
        _ => Ok(Unified::Clash),
    }
}

/// Binds an unbound variable to a different term that does not contain it.
fn bind_checked(terms: &mut Terms, number: usize, value: Value) -> Result<Unified, Halt> {
    if contains(terms, value, number)? {
        return Ok(Unified::Occurs);
    }
    terms.bind(number, value)?;
    Ok(Unified::Done)
}

/// Whether an unbound variable is in a term.
fn contains(terms: &Terms, value: Value, variable: usize) -> Result<bool, Halt> {
    let mut values = Vec::new(terms.alloc());
    values.push(value)?;
    for _ in 0..terms.most_visits() {
        let Some(value) = values.pop() else {
            return Ok(false);
        };
        match terms.value_of(value) {
            Value::Variable(number) => {
                if number == variable {
                    return Ok(true);
                }
            }
            Value::Compound(compound) => push_arguments(terms, compound, &mut values)?,
            Value::Integer(_) | Value::Atom(_) => (),
        }
    }
    Err(Halt::Stopped)
}
