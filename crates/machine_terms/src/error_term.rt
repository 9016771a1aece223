ghost use Rattle.std.specs.Prelude.{◌≡◌, false};
ghost use Rattle.machine_terms.specs.Answers.{is_answer};

use crate::compound::Compound;
use crate::evaluation_fault::EvaluationFault;
use crate::halt::Halt;
use crate::outcome::Outcome;
use crate::shape::atom_word;
use aq_term::atom::Atom;
use machine_store::store::Store;
use tag_word::word::Word;

/// Raises `instantiation_error`, as `throw/1` of a variable does: `Raises`, or `Full` or `Stray`.
pub fn raise_instantiation(store: &mut Store) -> Outcome {
    raise(store, Halt::Instantiation)
}

/// Raises `evaluation_error(fault)`, as an operation on two known integers does: `Raises`, or `Full` or `Stray`.
pub fn raise_evaluation(store: &mut Store, fault: EvaluationFault) -> Outcome {
    raise(
        store,
        Halt::Evaluation {
            fault: fault.name(),
        },
    )
}

/// Makes the ball `error(T,[])` of an error T at the heap's end and raises it: each compound at its own growth, the outer ones
/// first.
pub(crate) fn raise(store: &mut Store, error: Halt) -> Outcome
    ensures { is_answer result ≡ false }
{
    match ball(store, error) {
        Ok(word) => Outcome::Raises(word),
        Err(Halt::Full(area)) => Outcome::Full(area),
        Err(_) => Outcome::Stray,
    }
}

fn ball(store: &mut Store, error: Halt) -> Result<Word, Halt> {
    let ball = Compound::grow(store, Atom::ERROR, 2)?;
    ball.set_argument(store, 1, atom_word(Atom::NIL))?;
    let term = error_term(store, error)?;
    ball.set_argument(store, 0, term)?;
    Ok(ball.word)
}

fn error_term(store: &mut Store, error: Halt) -> Result<Word, Halt> {
    match error {
        Halt::Instantiation => Ok(atom_word(Atom::INSTANTIATION_ERROR)),
        Halt::Type { valid, culprit } => pair(store, Atom::TYPE_ERROR, atom_word(valid), culprit),
        Halt::NotEvaluable { name, arity } => not_evaluable(store, name, arity),
        Halt::Domain { domain, culprit } => {
            pair(store, Atom::DOMAIN_ERROR, atom_word(domain), culprit)
        }
        Halt::MaxArity => single(store, Atom::REPRESENTATION_ERROR, Atom::MAX_ARITY),
        Halt::Evaluation { fault } => single(store, Atom::EVALUATION_ERROR, fault),
        Halt::Stopped | Halt::Full(_) | Halt::Stray => Err(error),
    }
}

fn single(store: &mut Store, name: Atom, argument: Atom) -> Result<Word, Halt> {
    let made = Compound::grow(store, name, 1)?;
    made.set_argument(store, 0, atom_word(argument))?;
    Ok(made.word)
}

fn pair(store: &mut Store, name: Atom, first: Word, second: Word) -> Result<Word, Halt> {
    let made = Compound::grow(store, name, 2)?;
    made.set_argument(store, 0, first)?;
    made.set_argument(store, 1, second)?;
    Ok(made.word)
}

fn not_evaluable(store: &mut Store, name: Atom, arity: u8) -> Result<Word, Halt> {
    let made = Compound::grow(store, Atom::TYPE_ERROR, 2)?;
    made.set_argument(store, 0, atom_word(Atom::EVALUABLE))?;
    let indicator = pair(
        store,
        Atom::SLASH,
        atom_word(name),
        Word::of_int(arity as i64),
    )?;
    made.set_argument(store, 1, indicator)?;
    Ok(made.word)
}
