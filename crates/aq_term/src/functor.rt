use crate::atom::Atom;

/// The name and the number of arguments of a compound.
#[derive(Clone, Copy, Debug, PartialEq, Eq)]
pub struct Functor {
    pub name: Atom,
    pub arity: u8,
}
