use aq_term::functor::Functor;

/// What is known of a word.
#[derive(Clone, Copy, Debug, PartialEq, Eq)]
pub enum WordType {
    /// It stands for a term.
    Any,
    /// It is a reference to an unbound cell, or no reference.
    Head,
    /// It is a reference to an unbound cell.
    Var,
    /// Dereferenced it is no reference.
    Nonvar,
    /// It is no reference.
    Direct,
    /// No unbound cell is reachable from it.
    Ground,
    /// It is ground and direct.
    GroundDirect,
    /// No reference is reachable from it, and it is none.
    Full,
    /// It is an integer.
    Int,
    /// It is an atom.
    Atom,
    /// It is a list cell.
    ListCell,
    /// It is a list cell and ground.
    GroundListCell,
    /// It is a list cell and full.
    FullListCell,
    /// It is a structure of this functor.
    Structure(Functor),
    /// It is a structure of this functor and ground.
    GroundStructure(Functor),
    /// It is a structure of this functor and full.
    FullStructure(Functor),
    /// It is a number of choices.
    Bar,
}
