/// What a procedure is told of an argument when it is called.
#[derive(Clone, Copy, Debug, PartialEq, Eq)]
pub enum ArgType {
    /// No reference is reachable from the word, and it is none.
    Full,
    /// The word is no reference, and no unbound cell is reachable from it.
    GroundDirect,
    /// No unbound cell is reachable from the word.
    Ground,
    /// The word is no reference.
    Direct,
    /// Dereferenced the word is no reference.
    Nonvar,
    /// The word stands for a term.
    Any,
    /// The argument is a result of the procedure.
    Out,
    /// The word is a number of choices.
    Bar,
}
