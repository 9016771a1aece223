use crate::choice::{Catcher, Choice};
use crate::ending::End;
use crate::halt::Halt;
use crate::interpreter::Interpreter;
use crate::step::Step;

/// Making choices and going back to them.
impl<'p> Interpreter<'p> {
    /// Saves the present state with other goals.
    pub(crate) fn choose(
        &mut self,
        list: Option<usize>,
        catcher: Option<Catcher<'p>>,
    ) -> Result<(), Halt> {
        self.choices.push(Choice {
            list,
            goals: self.goals.len(),
            mark: self.terms.mark(),
            catcher,
        })?;
        Ok(())
    }

    /// Goes back to the newest choice that is no catcher.
    pub(crate) fn back(&mut self) -> Step {
        for _ in 0..self.choices.len() {
            let Some(choice) = self.choices.pop() else {
                return Step::Ended(End::Exhausted);
            };
            if choice.catcher.is_none() {
                self.terms.restore(choice.mark);
                self.goals.truncate(choice.goals);
                return Step::Went(choice.list);
            }
        }
        Step::Ended(End::Exhausted)
    }
}
