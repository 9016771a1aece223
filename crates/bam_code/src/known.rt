/// What is known of an argument's term.
#[derive(Clone, Copy, Debug, PartialEq, Eq)]
pub enum Known {
    /// Nothing.
    Any,
    /// It is no variable.
    Nonvar,
    /// It holds no variable.
    Ground,
}
