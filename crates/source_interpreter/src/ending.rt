use crate::value::Value;

/// How a run ended.
#[derive(Clone, Copy, Debug, PartialEq, Eq)]
pub enum Ending {
    Exhausted,
    /// A term was raised that nothing caught.
    Raised,
    /// A unification met a variable and a different term that contains it.
    Occurs,
    /// The steps were used up, or a step had to walk too far over terms.
    Stopped,
    /// The run came to a state that the language does not have.
    Lost,
}

/// How a run ended, with the term that was raised.
#[derive(Clone, Copy, Debug)]
pub enum End {
    Exhausted,
    Raised(Value),
    Occurs,
}
