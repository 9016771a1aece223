use crate::atom::Atom;

/// The name of a predicate in code. A source predicate has `part` 0 and as many arguments as its arity; an auxiliary predicate
/// is part 1, 2, .. of its source predicate, and has `width` arguments.
#[derive(Clone, Copy, Debug, PartialEq, Eq)]
pub struct ProcName {
    pub name: Atom,
    pub arity: u8,
    pub part: u32,
    pub width: u8,
}
