use crate::choice::Catcher;
use crate::goals::Link;
use crate::halt::Halt;
use crate::interpreter::Interpreter;
use crate::loading::load;
use crate::pending::{Body, Pending};
use crate::step::Step;
use aq_term::term::Term;
use source_program::goal::Goal;

/// Where a goal stands: the variables of its clause, the depth of its cuts, and the goals after it.
#[derive(Clone, Copy)]
pub struct Here {
    pub base: usize,
    pub depth: usize,
    pub next: Option<usize>,
}

/// The control constructs.
impl<'p> Interpreter<'p> {
    /// The step of a goal of a clause.
    pub(crate) fn goal(&mut self, goal: &'p Goal, here: Here) -> Result<Step, Halt> {
        match goal {
            Goal::True => Ok(Step::Went(here.next)),
            Goal::Fail => Ok(self.back()),
            Goal::Cut => Ok(self.cut(here)),
            Goal::And(first, second) => self.both(first.get(), second.get(), here),
            Goal::Or(first, second) => self.either(first.get(), second.get(), here),
            Goal::IfThen(condition, then) => self.if_then(condition.get(), then.get(), here),
            Goal::Not(negated) => self.not(negated.get(), here),
            Goal::Catch(guarded, ball, recovery) => {
                self.catch(guarded.get(), ball, recovery.get(), here)
            }
            Goal::Throw(ball) => self.throw(ball, here),
            Goal::Builtin(builtin, arguments) => {
                self.builtin(*builtin, arguments.as_slice(), here)
            }
            Goal::Call(name, arguments) => self.call(*name, arguments.as_slice(), here),
        }
    }

    /// Puts what is to be done in front of a list.
    pub(crate) fn put(
        &mut self,
        pending: Pending<'p>,
        depth: usize,
        next: Option<usize>,
    ) -> Result<Option<usize>, Halt> {
        Ok(
            self.goals.put(Link {
                pending,
                depth,
                next,
            })?,
        )
    }

    /// Puts a goal of a clause in front of a list.
    pub(crate) fn put_goal(&mut self, goal: &'p Goal, here: Here) -> Result<Option<usize>, Halt> {
        let body = Body {
            goal,
            base: here.base,
        };
        self.put(Pending::Goal(body), here.depth, here.next)
    }

    /// The oldest choices stay, as many as the depth says.
    pub(crate) fn cut(&mut self, here: Here) -> Step {
        self.choices.truncate(here.depth);
        Step::Went(here.next)
    }

    fn both(&mut self, first: &'p Goal, second: &'p Goal, here: Here) -> Result<Step, Halt> {
        let next = self.put_goal(second, here)?;
        Ok(Step::Went(self.put_goal(first, Here { next, ..here })?))
    }

    fn either(&mut self, first: &'p Goal, second: &'p Goal, here: Here) -> Result<Step, Halt> {
        let choices = self.choices.len();
        let other = self.put_goal(second, here)?;
        self.choose(other, None)?;
        match first {
            Goal::IfThen(condition, then) => {
                let inner = choices.saturating_add(1);
                self.committed(condition.get(), inner, choices, then.get(), here)
            }
            first => Ok(Step::Went(self.put_goal(first, here)?)),
        }
    }

    fn if_then(&mut self, condition: &'p Goal, then: &'p Goal, here: Here) -> Result<Step, Halt> {
        let choices = self.choices.len();
        self.committed(condition, choices, choices, then, here)
    }

    /// A condition whose cuts go back to `inner` choices, a cut back to `outer` choices, and what is done then.
    fn committed(
        &mut self,
        condition: &'p Goal,
        inner: usize,
        outer: usize,
        then: &'p Goal,
        here: Here,
    ) -> Result<Step, Halt> {
        let then = self.put_goal(then, here)?;
        let next = self.put(Pending::Cut, outer, then)?;
        let list = self.put_goal(
            condition,
            Here {
                base: here.base,
                depth: inner,
                next,
            },
        )?;
        Ok(Step::Went(list))
    }

    fn not(&mut self, negated: &'p Goal, here: Here) -> Result<Step, Halt> {
        let choices = self.choices.len();
        self.choose(here.next, None)?;
        let fail = self.put(Pending::Fail, choices, here.next)?;
        let next = self.put(Pending::Cut, choices, fail)?;
        let list = self.put_goal(
            negated,
            Here {
                base: here.base,
                depth: choices.saturating_add(1),
                next,
            },
        )?;
        Ok(Step::Went(list))
    }

    fn catch(
        &mut self,
        guarded: &'p Goal,
        ball: &'p Term,
        recovery: &'p Goal,
        here: Here,
    ) -> Result<Step, Halt> {
        let choices = self.choices.len();
        let ball = load(&mut self.terms, ball, here.base)?;
        let recovery = Body {
            goal: recovery,
            base: here.base,
        };
        self.choose(here.next, Some(Catcher { ball, recovery }))?;
        let next = self.put(Pending::Leave(choices), here.depth, here.next)?;
        let list = self.put_goal(
            guarded,
            Here {
                base: here.base,
                depth: choices.saturating_add(1),
                next,
            },
        )?;
        Ok(Step::Went(list))
    }
}
