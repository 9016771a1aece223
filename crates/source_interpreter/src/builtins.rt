use crate::arguments::Arguments;
use crate::control::Here;
use crate::copying::copy;
use crate::ending::End;
use crate::errors::{instantiation, type_error};
use crate::evaluation::{Evaluated, evaluate};
use crate::functors::{arg, functor, univ};
use crate::halt::Halt;
use crate::interpreter::Interpreter;
use crate::kinds::test_kind;
use crate::loading::load_call;
use crate::order::{Order, compare};
use crate::outcome::Outcome;
use crate::spelling::spell;
use crate::step::Step;
use crate::unification::{Unified, unify};
use crate::value::Value;
use aq_term::atom::Atom;
use aq_term::builtin::Builtin;
use aq_term::term::Term;
use prolog_writer::write_term;
use std::cmp::Ordering;

/// The priority at which whole terms are written.
pub const WHOLE: u16 = 1200;

/// The built-ins.
impl<'p> Interpreter<'p> {
    /// The step of a built-in.
    pub(crate) fn builtin(
        &mut self,
        builtin: Builtin,
        arguments: &'p [Term],
        here: Here,
    ) -> Result<Step, Halt> {
        let call = load_call(&mut self.terms, builtin.name(), arguments, here.base)?;
        let arguments = Arguments::of(&self.terms, call);
        match self.perform(builtin, arguments)? {
            Outcome::Succeeds => Ok(Step::Went(here.next)),
            Outcome::Fails => Ok(self.back()),
            Outcome::Raises(error) => self.raise(error, here.next),
            Outcome::Occurs => Ok(Step::Ended(End::Occurs)),
        }
    }

    fn perform(&mut self, builtin: Builtin, arguments: Arguments) -> Result<Outcome, Halt> {
        match arguments {
            Arguments::Zero => self.perform_without(builtin),
            Arguments::One(value) => self.perform_one(builtin, value),
            Arguments::Two(left, right) => self.perform_two(builtin, left, right),
            Arguments::Three(first, second, third) => {
                self.perform_three(builtin, first, second, third)
            }
        }
    }

    fn perform_without(&mut self, builtin: Builtin) -> Result<Outcome, Halt> {
        match builtin {
            Builtin::Nl => {
                self.output.put(b"\n")?;
                Ok(Outcome::Succeeds)
            }
            _ => Err(Halt::Lost),
        }
    }

    fn perform_one(&mut self, builtin: Builtin, value: Value) -> Result<Outcome, Halt> {
        match builtin {
            Builtin::Write => self.write(value, Quotes::Without),
            Builtin::Writeq => self.write(value, Quotes::With),
            Builtin::PutChar => self.put_char(value),
            kind => test_kind(kind, self.terms.value_of(value)).ok_or(Halt::Lost),
        }
    }

    fn perform_two(
        &mut self,
        builtin: Builtin,
        left: Value,
        right: Value,
    ) -> Result<Outcome, Halt> {
        match builtin {
            Builtin::Unify => Outcome::of_unification(&mut self.terms, left, right),
            Builtin::NotUnify => self.not_unify(left, right),
            Builtin::Univ => univ(&mut self.terms, left, right),
            Builtin::CopyTerm => self.copy_term(left, right),
            Builtin::Is => self.is(left, right),
            Builtin::Identical | Builtin::NotIdentical => self.identical(builtin, left, right),
            Builtin::TermLess | Builtin::TermAtMost | Builtin::TermGreater | Builtin::TermAtLeast =>
                self.compare_terms(builtin, left, right),
            _ => self.compare_numbers(builtin, left, right),
        }
    }

    fn perform_three(
        &mut self,
        builtin: Builtin,
        first: Value,
        second: Value,
        third: Value,
    ) -> Result<Outcome, Halt> {
        match builtin {
            Builtin::Functor => functor(&mut self.terms, first, second, third),
            Builtin::Arg => arg(&mut self.terms, first, second, third),
            Builtin::Compare => self.compare(first, second, third),
            _ => Err(Halt::Lost),
        }
    }

    /// `X \= Y` binds nothing.
    fn not_unify(&mut self, left: Value, right: Value) -> Result<Outcome, Halt> {
        let mark = self.terms.mark();
        let unified = unify(&mut self.terms, left, right)?;
        self.terms.unbind(mark);
        Ok(match unified {
            Unified::Done => Outcome::Fails,
            Unified::Clash => Outcome::Succeeds,
            Unified::Occurs => Outcome::Occurs,
        })
    }

    fn copy_term(&mut self, term: Value, made_copy: Value) -> Result<Outcome, Halt> {
        let made = copy(&mut self.terms, term)?;
        Outcome::of_unification(&mut self.terms, made_copy, made)
    }

    fn is(&mut self, left: Value, expression: Value) -> Result<Outcome, Halt> {
        match evaluate(&mut self.terms, expression)? {
            Evaluated::Raises(error) => Ok(Outcome::Raises(error)),
            Evaluated::Number(number) => {
                Outcome::of_unification(&mut self.terms, left, Value::Integer(number))
            }
        }
    }

    fn compare_numbers(
        &mut self,
        builtin: Builtin,
        left: Value,
        right: Value,
    ) -> Result<Outcome, Halt> {
        let left = match evaluate(&mut self.terms, left)? {
            Evaluated::Raises(error) => return Ok(Outcome::Raises(error)),
            Evaluated::Number(number) => number,
        };
        match evaluate(&mut self.terms, right)? {
            Evaluated::Raises(error) => Ok(Outcome::Raises(error)),
            Evaluated::Number(right) => stands(builtin, left.cmp(&right)),
        }
    }

    fn identical(&mut self, builtin: Builtin, left: Value, right: Value) -> Result<Outcome, Halt> {
        let order = compare(&self.terms, self.atoms, left, right)?;
        let wanted = builtin == Builtin::Identical;
        Ok(if (order == Order::Equal) == wanted {
            Outcome::Succeeds
        } else {
            Outcome::Fails
        })
    }

    fn compare_terms(
        &mut self,
        builtin: Builtin,
        left: Value,
        right: Value,
    ) -> Result<Outcome, Halt> {
        match compare(&self.terms, self.atoms, left, right)? {
            Order::Less => stands(builtin, Ordering::Less),
            Order::Equal => stands(builtin, Ordering::Equal),
            Order::Greater => stands(builtin, Ordering::Greater),
            Order::Open => Ok(Outcome::Raises(instantiation())),
        }
    }

    fn compare(&mut self, order: Value, left: Value, right: Value) -> Result<Outcome, Halt> {
        let name = match compare(&self.terms, self.atoms, left, right)? {
            Order::Less => Atom::LESS,
            Order::Equal => Atom::UNIFIES,
            Order::Greater => Atom::GREATER,
            Order::Open => return Ok(Outcome::Raises(instantiation())),
        };
        Outcome::of_unification(&mut self.terms, order, Value::Atom(name))
    }

    fn write(&mut self, value: Value, quotes: Quotes) -> Result<Outcome, Halt> {
        let term = spell(&self.terms, value)?;
        let quoted = quotes == Quotes::With;
        let text = write_term(self.terms.alloc(), &term, self.atoms, quoted, WHOLE)?;
        self.output.put(text.as_slice())?;
        Ok(Outcome::Succeeds)
    }

    fn put_char(&mut self, value: Value) -> Result<Outcome, Halt> {
        match self.terms.value_of(value) {
            Value::Variable(_) => Ok(Outcome::Raises(instantiation())),
            Value::Atom(name) if is_character(self.atoms.text_or_empty(name)) => {
                self.output.put(self.atoms.text_or_empty(name).as_bytes())?;
                Ok(Outcome::Succeeds)
            }
            other => {
                let error = type_error(&mut self.terms, Atom::CHARACTER, other)?;
                Ok(Outcome::Raises(error))
            }
        }
    }
}

/// Whether atoms are written with quotes.
#[derive(Clone, Copy, PartialEq, Eq)]
enum Quotes {
    With,
    Without,
}

/// Whether a text is one character.
fn is_character(text: &str) -> bool {
    text.chars().count() == 1
}

/// Whether two values that stand so to one another are as a comparison wants them.
fn stands(builtin: Builtin, ordering: Ordering) -> Result<Outcome, Halt> {
    let holds = match builtin {
        Builtin::NumberEqual => ordering == Ordering::Equal,
        Builtin::NumberNotEqual => ordering != Ordering::Equal,
        Builtin::Less | Builtin::TermLess => ordering == Ordering::Less,
        Builtin::AtMost | Builtin::TermAtMost => ordering != Ordering::Greater,
        Builtin::Greater | Builtin::TermGreater => ordering == Ordering::Greater,
        Builtin::AtLeast | Builtin::TermAtLeast => ordering != Ordering::Less,
        _ => return Err(Halt::Lost),
    };
    Ok(if holds {
        Outcome::Succeeds
    } else {
        Outcome::Fails
    })
}
