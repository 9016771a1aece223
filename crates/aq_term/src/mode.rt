/// What an entry declaration says of an argument of its queries.
#[derive(Clone, Copy, Debug, PartialEq, Eq, Default)]
pub enum Mode {
    /// The argument holds no variable.
    Ground,
    /// The argument is no variable.
    Nonvar,
    /// The argument is a variable that stands once in the query.
    Out,
    /// The argument is any term.
    #[default]
    Any,
}
