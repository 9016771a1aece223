use crate::halt::Halt;
use crate::terms::Terms;
use crate::unification::{Unified, unify};
use crate::value::Value;

/// What a built-in comes to.
#[derive(Clone, Copy, Debug)]
pub enum Outcome {
    Succeeds,
    Fails,
    /// The error that is raised.
    Raises(Value),
    /// A unification met a variable and a different term that contains it.
    Occurs,
}

impl Outcome {
    /// Succeeds where both terms unify.
    pub fn of_unification(terms: &mut Terms, left: Value, right: Value) -> Result<Outcome, Halt> {
        Ok(match unify(terms, left, right)? {
            Unified::Done => Outcome::Succeeds,
            Unified::Clash => Outcome::Fails,
            Unified::Occurs => Outcome::Occurs,
        })
    }
}
