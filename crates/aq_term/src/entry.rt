use crate::atom::Atom;
use crate::modes::Modes;

/// The declaration that queries may call a predicate.
#[derive(Debug, Drop)]
pub struct Entry {
    pub name: Atom,
    pub arity: u8,
    /// One for each argument.
    pub modes: Modes,
    /// The number of the clause that declares it, from 1, and 0 where it comes from code.
    pub clause: u64,
}
