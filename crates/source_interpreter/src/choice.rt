use crate::pending::Body;
use crate::terms::Mark;
use crate::value::Value;

/// A saved state.
#[derive(Clone, Copy)]
pub struct Choice<'p> {
    /// The goals of the state.
    pub list: Option<usize>,
    /// How many goals there were in all lists.
    pub goals: usize,
    pub mark: Mark,
    /// What it takes, where it is a catcher.
    pub catcher: Option<Catcher<'p>>,
}

/// What a catcher takes, and what is done then.
#[derive(Clone, Copy)]
pub struct Catcher<'p> {
    pub ball: Value,
    pub recovery: Body<'p>,
}
