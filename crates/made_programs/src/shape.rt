/// What the clauses of a predicate are like.
#[derive(Clone, Copy, PartialEq, Eq)]
pub enum Shape {
    /// Any clauses.
    Plain,
    /// A clause for the empty list and one or two for a list cell, which call the predicate with the tail.
    OnLists,
    /// A clause for 0 and one for a number above, which calls the predicate with the number below.
    Counting,
}
