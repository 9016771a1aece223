use aq_term::atom::Atom;

/// An integer or an atom.
#[derive(Clone, Copy, Debug, PartialEq, Eq)]
pub enum Constant {
    Int(i64),
    Atom(Atom),
}
