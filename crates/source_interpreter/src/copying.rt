use crate::halt::Halt;
use crate::terms::Terms;
use crate::value::{Compound, Value};

/// A place that waits for the copy of a term.
#[derive(Clone, Copy)]
struct Waiting {
    place: usize,
    value: Value,
}

/// A variable and the one that stands for it in the copy.
#[derive(Clone, Copy)]
struct Renamed {
    number: usize,
    copy: Value,
}

/// A copy of a term as it stands, with new variables.
pub fn copy(terms: &mut Terms, value: Value) -> Result<Value, Halt> {
    let mut waiting = Vec::new(terms.alloc());
    let mut renamed = Vec::new(terms.alloc());
    let whole = copy_node(terms, value, &mut renamed, &mut waiting)?;
    for _ in 0..terms.most_visits() {
        let Some(next) = waiting.pop() else {
            return Ok(whole);
        };
        let argument = copy_node(terms, next.value, &mut renamed, &mut waiting)?;
        terms.set(next.place, argument);
    }
    Err(Halt::Stopped)
}

/// The copy of a term whose arguments, where it has any, are still to be set.
fn copy_node(
    terms: &mut Terms,
    value: Value,
    renamed: &mut Vec<Renamed>,
    waiting: &mut Vec<Waiting>,
) -> Result<Value, Halt> {
    match terms.value_of(value) {
        Value::Variable(number) => copy_variable(terms, number, renamed),
        Value::Compound(compound) => copy_compound(terms, compound, waiting),
        constant => Ok(constant),
    }
}

fn copy_variable(
    terms: &mut Terms,
    number: usize,
    renamed: &mut Vec<Renamed>,
) -> Result<Value, Halt> {
    for earlier in renamed.as_slice() {
        if earlier.number == number {
            return Ok(earlier.copy);
        }
    }
    let copy = terms.variable()?;
    renamed.push(Renamed { number, copy })?;
    Ok(copy)
}

fn copy_compound(
    terms: &mut Terms,
    compound: Compound,
    waiting: &mut Vec<Waiting>,
) -> Result<Value, Halt> {
    let first = terms.room(compound.arity)?;
    let mut place = first;
    for index in 0..compound.arity {
        let Some(value) = terms.argument(compound, index) else {
            return Err(Halt::Lost);
        };
        waiting.push(Waiting { place, value })?;
        place = place.saturating_add(1);
    }
    Ok(Value::Compound(Compound { first, ..compound }))
}
