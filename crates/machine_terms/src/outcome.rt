ghost use Rattle.std.specs.Prelude.{◌≡◌, true, Ok};
ghost use Rattle.machine_terms.specs.Answers.{is_answer};

use crate::error_term::raise;
use crate::halt::Halt;
use aq_base::area_name::AreaName;
use machine_store::store::Store;
use tag_word::word::Word;

/// What a built-in on terms comes to.
#[derive(Clone, Copy, Debug)]
pub enum Outcome {
    /// A word for the machine to unify with the built-in's result argument: the argument of `arg`, the term or the list of `=..`,
    /// the copy of `copy_term`, the order of `compare`, the term of `functor` where its first argument is a variable. For
    /// `evaluate` it is the integer, and for `put_char` the atom.
    Made(Word),
    /// For `functor` of a term that is no variable: the words to unify with the name and then with the arity.
    MadeTwo(Word, Word),
    /// The built-in fails.
    Fails,
    /// The built-in raises this ball, which is whole: the error T of the built-in stands in `error(T,[])` on the heap.
    Raises(Word),
    /// A visit was due and none was left. The heap may have grown.
    Stopped,
    /// A growth needed more words than this area's limit. The heap may have grown.
    Full(AreaName),
    /// The words given stand for no term, or are fewer than the built-in's arguments.
    Stray,
}

/// The outcome of a call. An error is made here, after all visits.
pub(crate) fn outcome_of(store: &mut Store, answer: Result<Outcome, Halt>) -> Outcome
    ensures { is_answer result ≡ true → answer ≡ Ok result }
{
    match answer {
        Ok(outcome) => outcome,
        Err(Halt::Stopped) => Outcome::Stopped,
        Err(Halt::Full(area)) => Outcome::Full(area),
        Err(Halt::Stray) => Outcome::Stray,
        Err(error) => raise(store, error),
    }
}
