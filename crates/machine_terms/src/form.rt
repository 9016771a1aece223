use aq_term::atom::Atom;
use bam_code::arith_op::ArithOp;

/// A compound that can be evaluated.
#[derive(Clone, Copy)]
pub enum Form {
    /// An operation on this integer and the value of the one argument: `- X` is `0 - X`, and `\ X` is `-1 - X`.
    OneArgument { left: i64, operation: Atom },
    /// An operation on the values of both arguments.
    TwoArguments { operation: Atom },
}

impl Form {
    /// The form of compounds of this name and arity, or none. The operation is given by the name of its form of two arguments.
    pub fn of(name: Atom, arity: u8) -> Option<Form> {
        match arity {
            1 => Form::of_one(name),
            2 => match operation_named(name) {
                Some(_) => Some(Form::TwoArguments { operation: name }),
                None => None,
            },
            _ => None,
        }
    }

    fn of_one(name: Atom) -> Option<Form> {
        let left = match name {
            Atom::MINUS => 0,
            Atom::COMPLEMENT => -1,
            _ => return None,
        };
        Some(Form::OneArgument {
            left,
            operation: Atom::MINUS,
        })
    }
}

/// The operation that a compound of this name with two arguments asks for.
pub fn operation_named(name: Atom) -> Option<ArithOp> {
    match name {
        Atom::PLUS => Some(ArithOp::Add),
        Atom::MINUS => Some(ArithOp::Subtract),
        Atom::TIMES => Some(ArithOp::Multiply),
        Atom::QUOTIENT => Some(ArithOp::Quotient),
        Atom::REM => Some(ArithOp::Remainder),
        Atom::MOD => Some(ArithOp::Modulo),
        Atom::SHIFT_LEFT => Some(ArithOp::ShiftLeft),
        Atom::SHIFT_RIGHT => Some(ArithOp::ShiftRight),
        Atom::BIT_AND => Some(ArithOp::And),
        Atom::BIT_OR => Some(ArithOp::Or),
        _ => None,
    }
}
