//! Terms of a run as terms to be written.

use crate::arguments::push_arguments;
use crate::halt::Halt;
use crate::terms::Terms;
use crate::value::Value;
use aq_term::args::Args;
use aq_term::atom::Atom;
use aq_term::term::Term;

/// The deepest term that is written.
const MOST_DEPTH: usize = 4_096;

/// What is still to be made of a term.
#[derive(Clone, Copy, Debug)]
enum Task {
    /// A term that is this deep within the whole.
    Make(Value, usize),
    /// A compound of the newest terms.
    Join(Atom, usize),
}

/// A term as it stands. A variable keeps its number.
pub fn spell(terms: &Terms, value: Value) -> Result<Term, Halt> {
    let mut tasks = Vec::new(terms.alloc());
    let mut made = Vec::new(terms.alloc());
    tasks.push(Task::Make(value, 1))?;
    for _ in 0..terms.most_visits() {
        match tasks.pop() {
            None => return made.pop().ok_or(Halt::Lost),
            Some(Task::Make(value, depth)) => make(terms, value, depth, &mut tasks, &mut made)?,
            Some(Task::Join(name, arity)) => join(name, arity, &mut made)?,
        }
    }
    Err(Halt::Stopped)
}

fn make(
    terms: &Terms,
    value: Value,
    depth: usize,
    tasks: &mut Vec<Task>,
    made: &mut Vec<Term>,
) -> Result<(), Halt> {
    let term = match terms.value_of(value) {
        Value::Variable(number) => Term::Var(u32::try_from(number).ok().ok_or(Halt::Stopped)?),
        Value::Integer(number) => Term::Int(number),
        Value::Atom(name) => Term::Atom(name),
        Value::Compound(compound) => {
            if depth >= MOST_DEPTH {
                return Err(Halt::Stopped);
            }
            tasks.push(Task::Join(compound.name, compound.arity))?;
            let mut arguments = Vec::new(terms.alloc());
            push_arguments(terms, compound, &mut arguments)?;
            for argument in arguments.as_slice() {
                tasks.push(Task::Make(*argument, depth.saturating_add(1)))?;
            }
            return Ok(());
        }
    };
    made.push(term)?;
    Ok(())
}

/// Joins the newest terms to a compound.
fn join(name: Atom, arity: usize, made: &mut Vec<Term>) -> Result<(), Halt> {
    let Some(first) = made.len().checked_sub(arity) else {
        return Err(Halt::Lost);
    };
    let arguments = made.split_off(first)?;
    made.push(Term::Compound(name, Args::from_vec(arguments)))?;
    Ok(())
}
