/// What is filled into a hole.
#[derive(Clone, Copy, Debug, PartialEq, Eq)]
pub enum HoleType {
    /// No reference is reachable from the word, and it is none.
    Full,
    /// The word is no reference, and no unbound cell is reachable from it.
    GroundDirect,
    /// No unbound cell is reachable from the word.
    Ground,
    /// The word is no reference.
    Direct,
    /// Dereferenced the word is no reference.
    Nonvar,
    /// The word stands for a term.
    Any,
}
