/// Facts that have risen, so that clauses are to be taken again. The number is the place of the predicate.
#[derive(Clone, Copy, Debug, PartialEq, Eq)]
pub enum Rise {
    /// The facts of the predicate's calls, or that it is called at all: its own clauses are taken.
    Call(usize),
    /// The facts of its successes: the clauses that call it are taken.
    Success(usize),
}
