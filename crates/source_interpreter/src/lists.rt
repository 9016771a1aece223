use crate::halt::Halt;
use crate::terms::Terms;
use crate::value::{Compound, Value};
use aq_term::atom::Atom;

/// A term read as a list.
#[derive(Debug, Drop)]
pub enum List {
    /// A list of these elements.
    Whole(Vec<Value>),
    /// An unbound variable, or a list that ends in one.
    Partial,
    /// Anything else.
    Other,
}

/// The elements of a list.
pub fn read_list(terms: &Terms, value: Value) -> Result<List, Halt> {
    let mut elements = Vec::new(terms.alloc());
    let mut rest = terms.value_of(value);
    for _ in 0..terms.most_visits() {
        match rest {
            Value::Variable(_) => return Ok(List::Partial),
            Value::Atom(Atom::NIL) => return Ok(List::Whole(elements)),
            Value::Compound(cell) if is_cell(cell) => {
                elements.push(terms.argument(cell, 0).ok_or(Halt::Lost)?)?;
                rest = terms.value_of(terms.argument(cell, 1).ok_or(Halt::Lost)?);
            }
            _ => return Ok(List::Other),
        }
    }
    Err(Halt::Stopped)
}

fn is_cell(compound: Compound) -> bool {
    compound.name == Atom::LIST && compound.arity == 2
}

/// The list of a name and the arguments of a compound.
pub fn list_of_compound(terms: &mut Terms, compound: Compound) -> Result<Value, Halt> {
    let mut rest = Value::Atom(Atom::NIL);
    for place in (0..compound.arity).rev() {
        let argument = terms.argument(compound, place).ok_or(Halt::Lost)?;
        rest = terms.compound(Atom::LIST, &[argument, rest])?;
    }
    Ok(terms.compound(Atom::LIST, &[Value::Atom(compound.name), rest])?)
}

/// The list of one element.
pub fn list_of_one(terms: &mut Terms, element: Value) -> Result<Value, Halt> {
    Ok(terms.compound(Atom::LIST, &[element, Value::Atom(Atom::NIL)])?)
}
