use crate::attempt::Attempt;
use crate::value::Value;
use source_program::goal::Goal;

/// What is still to be done first.
#[derive(Clone, Copy)]
pub enum Pending<'p> {
    /// A goal of a clause.
    Goal(Body<'p>),
    /// A cut back to the goal's depth.
    Cut,
    Fail,
    /// A call whose clauses are tried; its depth is the number of choices when it was entered.
    Try(Attempt<'p>),
    /// The end of what a catcher guards, where this many choices are older than the catcher.
    Leave(usize),
    /// A term that was raised.
    Ball(Value),
}

/// A goal of a clause whose variable N is the variable `base + N` of the run.
#[derive(Clone, Copy)]
pub struct Body<'p> {
    pub goal: &'p Goal,
    pub base: usize,
}
