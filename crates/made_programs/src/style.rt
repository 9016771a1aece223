/// What becomes of a further argument of a predicate that calls itself.
#[derive(Clone, Copy, PartialEq, Eq)]
pub enum Style {
    /// It is handed on.
    Kept,
    /// The head has a list cell there, and the call its tail.
    Built,
    /// The call has a list cell there, and the head its tail.
    Gathered,
    /// The head has a sum there that takes the call's.
    Summed,
}
