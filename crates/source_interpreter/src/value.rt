use aq_term::atom::Atom;

/// A term of a run.
#[derive(Clone, Copy, Debug)]
pub enum Value {
    /// The variable of this number, which may be bound.
    Variable(usize),
    Integer(i64),
    Atom(Atom),
    Compound(Compound),
}

/// A name with arguments, which stand side by side among the terms of a run.
#[derive(Clone, Copy, Debug)]
pub struct Compound {
    pub name: Atom,
    /// The place of the first argument.
    pub first: usize,
    /// How many arguments there are: 1 to 255 in a term, 0 to 63 in a call.
    pub arity: usize,
}

impl Compound {
    /// Whether both have the same name and the same number of arguments.
    pub fn is_alike(self, other: Compound) -> bool {
        self.name == other.name && self.arity == other.arity
    }
}
