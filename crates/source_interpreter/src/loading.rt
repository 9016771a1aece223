//! Terms of the program and the query with variables of the run.

use crate::halt::Halt;
use crate::terms::Terms;
use crate::value::{Compound, Value};
use aq_term::atom::Atom;
use aq_term::term::Term;

/// A place that waits for a term of the program.
#[derive(Clone, Copy)]
struct Waiting<'a> {
    place: usize,
    term: &'a Term,
}

/// A term in which variable N of the program is the variable `base + N` of the run.
pub fn load(terms: &mut Terms, term: &Term, base: usize) -> Result<Value, Halt> {
    let mut waiting = Vec::new(terms.alloc());
    let value = load_node(terms, term, base, &mut waiting)?;
    for _ in 0..terms.most_visits() {
        let Some(next) = waiting.pop() else {
            return Ok(value);
        };
        let argument = load_node(terms, next.term, base, &mut waiting)?;
        terms.set(next.place, argument);
    }
    Err(Halt::Stopped)
}

/// A term whose arguments, where it has any, are still to be set.
fn load_node<'a>(
    terms: &mut Terms,
    term: &'a Term,
    base: usize,
    waiting: &mut Vec<Waiting<'a>>,
) -> Result<Value, Halt> {
    match term {
        Term::Var(number) => Ok(Value::Variable(base.saturating_add(*number as usize))),
        Term::Int(value) => Ok(Value::Integer(*value)),
        Term::Atom(name) => Ok(Value::Atom(*name)),
        Term::Compound(name, args) => {
            let arity = args.len();
            let first = terms.room(arity)?;
            let mut place = first;
            for term in args.as_slice() {
                waiting.push(Waiting { place, term })?;
                place = place.saturating_add(1);
            }
            Ok(Value::Compound(Compound {
                name: *name,
                first,
                arity,
            }))
        }
    }
}

/// A call with these arguments.
pub fn load_call(
    terms: &mut Terms,
    name: Atom,
    arguments: &[Term],
    base: usize,
) -> Result<Compound, Halt> {
    let arity = arguments.len();
    let first = terms.room(arity)?;
    let mut place = first;
    for argument in arguments {
        let value = load(terms, argument, base)?;
        terms.set(place, value);
        place = place.saturating_add(1);
    }
    Ok(Compound { name, first, arity })
}
