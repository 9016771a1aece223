//! The built-ins that take terms apart and put them together.

use crate::errors::{domain_error, instantiation, too_many_arguments, type_error};
use crate::halt::Halt;
use crate::lists::{List, list_of_compound, list_of_one, read_list};
use crate::outcome::Outcome;
use crate::terms::Terms;
use crate::value::{Compound, Value};
use aq_term::atom::Atom;

/// The most arguments of a compound.
const MOST_ARGUMENTS: usize = 255;

/// `functor(TERM,NAME,ARITY)`
pub fn functor(terms: &mut Terms, term: Value, name: Value, arity: Value) -> Result<Outcome, Halt> {
    match terms.value_of(term) {
        Value::Variable(_) => make_functor(terms, term, name, arity),
        Value::Compound(compound) => {
            let count = i64::try_from(compound.arity).ok().ok_or(Halt::Lost)?;
            let made_name = Value::Atom(compound.name);
            unify_both(terms, name, made_name, arity, Value::Integer(count))
        }
        constant => unify_both(terms, name, constant, arity, Value::Integer(0)),
    }
}

/// Unifies the name, and then the arity.
fn unify_both(
    terms: &mut Terms,
    name: Value,
    made_name: Value,
    arity: Value,
    made_arity: Value,
) -> Result<Outcome, Halt> {
    match Outcome::of_unification(terms, name, made_name)? {
        Outcome::Succeeds => Outcome::of_unification(terms, arity, made_arity),
        other => Ok(other),
    }
}

/// `functor` with an unbound term: tests the name and the arity, in the order of the errors.
fn make_functor(
    terms: &mut Terms,
    term: Value,
    name: Value,
    arity: Value,
) -> Result<Outcome, Halt> {
    let name = terms.value_of(name);
    let arity = terms.value_of(arity);
    match (name, arity) {
        (Value::Variable(_), _) | (_, Value::Variable(_)) => Ok(Outcome::Raises(instantiation())),
        (Value::Compound(_), _) => raise_type(terms, Atom::ATOMIC, name),
        (_, Value::Integer(count)) => make_counted(terms, term, name, count),
        _ => raise_type(terms, Atom::INTEGER, arity),
    }
}

/// `functor` with an unbound term, a constant as its name and an integer.
fn make_counted(terms: &mut Terms, term: Value, name: Value, count: i64) -> Result<Outcome, Halt> {
    if count < 0 {
        return raise_negative(terms, count);
    }
    let arity = match usize::try_from(count) {
        Ok(arity) if arity <= MOST_ARGUMENTS => arity,
        _ => return Ok(Outcome::Raises(too_many_arguments(terms)?)),
    };
    match name {
        _ if arity == 0 => Outcome::of_unification(terms, term, name),
        Value::Atom(name) => {
            let made = open_compound(terms, name, arity)?;
            Outcome::of_unification(terms, term, made)
        }
        other => raise_type(terms, Atom::ATOM, other),
    }
}

/// A compound of new variables.
fn open_compound(terms: &mut Terms, name: Atom, arity: usize) -> Result<Value, Halt> {
    let first = terms.room(arity)?;
    let mut place = first;
    for _ in 0..arity {
        let variable = terms.variable()?;
        terms.set(place, variable);
        place = place.saturating_add(1);
    }
    Ok(Value::Compound(Compound { name, first, arity }))
}

/// `arg(NUMBER,TERM,ARGUMENT)`
pub fn arg(
    terms: &mut Terms,
    number: Value,
    term: Value,
    argument: Value,
) -> Result<Outcome, Halt> {
    let number = terms.value_of(number);
    let term = terms.value_of(term);
    match (number, term) {
        (Value::Variable(_), _) | (_, Value::Variable(_)) => Ok(Outcome::Raises(instantiation())),
        (Value::Integer(place), Value::Compound(compound)) => {
            unify_argument(terms, place, compound, argument)
        }
        (Value::Integer(_), _) => raise_type(terms, Atom::COMPOUND, term),
        _ => raise_type(terms, Atom::INTEGER, number),
    }
}

/// Unifies an argument, counted from 1. There is none at 0 and past the last one.
fn unify_argument(
    terms: &mut Terms,
    number: i64,
    compound: Compound,
    argument: Value,
) -> Result<Outcome, Halt> {
    if number < 0 {
        return raise_negative(terms, number);
    }
    let found = match usize::try_from(number) {
        Ok(number) => match number.checked_sub(1) {
            Some(place) => terms.argument(compound, place),
            None => None,
        },
        Err(_) => None,
    };
    match found {
        Some(found) => Outcome::of_unification(terms, argument, found),
        None => Ok(Outcome::Fails),
    }
}

/// `TERM =.. LIST`
pub fn univ(terms: &mut Terms, term: Value, list: Value) -> Result<Outcome, Halt> {
    let made = match terms.value_of(term) {
        Value::Variable(_) => return make_from_list(terms, term, list),
        Value::Compound(compound) => list_of_compound(terms, compound)?,
        constant => list_of_one(terms, constant)?,
    };
    Outcome::of_unification(terms, list, made)
}

/// `=..` with an unbound term: tests the list, in the order of the errors.
fn make_from_list(terms: &mut Terms, term: Value, list: Value) -> Result<Outcome, Halt> {
    match read_list(terms, list)? {
        List::Partial => Ok(Outcome::Raises(instantiation())),
        List::Other => {
            let culprit = terms.value_of(list);
            raise_type(terms, Atom::LIST_TYPE, culprit)
        }
        List::Whole(elements) => match elements.as_slice() {
            [] => {
                let none = Value::Atom(Atom::NIL);
                Ok(Outcome::Raises(domain_error(terms, Atom::NON_EMPTY_LIST, none)?))
            }
            [first, arguments @ ..] => make_from_elements(terms, term, *first, arguments),
        },
    }
}

/// `=..` with an unbound term and a list that begins with `first`.
fn make_from_elements(
    terms: &mut Terms,
    term: Value,
    first: Value,
    arguments: &[Value],
) -> Result<Outcome, Halt> {
    let first = terms.value_of(first);
    match first {
        Value::Variable(_) => Ok(Outcome::Raises(instantiation())),
        Value::Compound(_) if arguments.is_empty() => raise_type(terms, Atom::ATOMIC, first),
        _ if arguments.is_empty() => Outcome::of_unification(terms, term, first),
        Value::Atom(name) => {
            if arguments.len() > MOST_ARGUMENTS {
                return Ok(Outcome::Raises(too_many_arguments(terms)?));
            }
            let made = terms.compound(name, arguments)?;
            Outcome::of_unification(terms, term, made)
        }
        _ => raise_type(terms, Atom::ATOM, first),
    }
}

fn raise_type(terms: &mut Terms, kind: Atom, culprit: Value) -> Result<Outcome, Halt> {
    Ok(Outcome::Raises(type_error(terms, kind, culprit)?))
}

fn raise_negative(terms: &mut Terms, number: i64) -> Result<Outcome, Halt> {
    let culprit = Value::Integer(number);
    let error = domain_error(terms, Atom::NOT_LESS_THAN_ZERO, culprit)?;
    Ok(Outcome::Raises(error))
}
