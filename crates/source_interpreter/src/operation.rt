use aq_term::atom::Atom;

/// An operation of arithmetic.
#[derive(Clone, Copy, Debug, PartialEq, Eq)]
pub enum Operation {
    /// `X + Y`
    Add,
    /// `X - Y`
    Subtract,
    /// `X * Y`
    Multiply,
    /// `- X`
    Negate,
    /// `X // Y`
    Quotient,
    /// `X rem Y`
    Remainder,
    /// `X mod Y`
    Modulo,
    /// `X << Y`
    ShiftLeft,
    /// `X >> Y`
    ShiftRight,
    /// `X /\ Y`
    And,
    /// `X \/ Y`
    Or,
    /// `\ X`
    Complement,
}

impl Operation {
    /// The operation of this name and this number of operands.
    pub fn of(name: Atom, arity: usize) -> Option<Operation> {
        match arity {
            1 => Operation::of_one(name),
            2 => Operation::of_two(name),
            _ => None,
        }
    }

    fn of_one(name: Atom) -> Option<Operation> {
        match name {
            Atom::MINUS => Some(Operation::Negate),
            Atom::COMPLEMENT => Some(Operation::Complement),
            _ => None,
        }
    }

    fn of_two(name: Atom) -> Option<Operation> {
        match name {
            Atom::PLUS => Some(Operation::Add),
            Atom::MINUS => Some(Operation::Subtract),
            Atom::TIMES => Some(Operation::Multiply),
            Atom::QUOTIENT => Some(Operation::Quotient),
            Atom::REM => Some(Operation::Remainder),
            Atom::MOD => Some(Operation::Modulo),
            Atom::SHIFT_LEFT => Some(Operation::ShiftLeft),
            Atom::SHIFT_RIGHT => Some(Operation::ShiftRight),
            Atom::BIT_AND => Some(Operation::And),
            Atom::BIT_OR => Some(Operation::Or),
            _ => None,
        }
    }
}
