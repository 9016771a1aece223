use crate::choice::{Catcher, Choice};
use crate::control::Here;
use crate::copying::copy;
use crate::ending::End;
use crate::errors::{ball_of, instantiation};
use crate::halt::Halt;
use crate::interpreter::Interpreter;
use crate::loading::load;
use crate::pending::Pending;
use crate::step::Step;
use crate::unification::{Unified, unify};
use crate::value::Value;
use aq_term::term::Term;

/// Raising terms and catching them.
impl<'p> Interpreter<'p> {
    /// Raises a copy of a term of the program.
    pub(crate) fn throw(&mut self, ball: &'p Term, here: Here) -> Result<Step, Halt> {
        let ball = load(&mut self.terms, ball, here.base)?;
        match self.terms.value_of(ball) {
            Value::Variable(_) => self.raise(instantiation(), here.next),
            ball => self.put_ball(ball, here.next),
        }
    }

    /// Raises `error(E,[])` for the error E.
    pub(crate) fn raise(&mut self, error: Value, next: Option<usize>) -> Result<Step, Halt> {
        let ball = ball_of(&mut self.terms, error)?;
        self.put_ball(ball, next)
    }

    fn put_ball(&mut self, ball: Value, next: Option<usize>) -> Result<Step, Halt> {
        let ball = copy(&mut self.terms, ball)?;
        Ok(Step::Went(self.put(Pending::Ball(ball), 0, next)?))
    }

    /// Gives a ball to the innermost catcher in force.
    pub(crate) fn ball(&mut self, ball: Value, next: Option<usize>) -> Result<Step, Halt> {
        let Some(older) = self.goals.first_leave(next) else {
            return Ok(Step::Ended(End::Raised(ball)));
        };
        self.choices.truncate(older.saturating_add(1));
        let choice = self.choices.pop().ok_or(Halt::Lost)?;
        let catcher = choice.catcher.ok_or(Halt::Lost)?;
        self.terms.unbind(choice.mark);
        self.catch_ball(ball, choice, catcher)
    }

    fn catch_ball(
        &mut self,
        ball: Value,
        choice: Choice<'p>,
        catcher: Catcher<'p>,
    ) -> Result<Step, Halt> {
        match unify(&mut self.terms, ball, catcher.ball)? {
            Unified::Done => {
                let here = Here {
                    base: catcher.recovery.base,
                    depth: self.choices.len(),
                    next: choice.list,
                };
                Ok(Step::Went(self.put_goal(catcher.recovery.goal, here)?))
            }
            Unified::Clash => {
                self.terms.unbind(choice.mark);
                Ok(Step::Went(self.put(Pending::Ball(ball), 0, choice.list)?))
            }
            Unified::Occurs => Ok(Step::Ended(End::Occurs)),
        }
    }
}
