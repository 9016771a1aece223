use aq_term::atom::Atom;

/// Why an operation on two integers has no value.
#[derive(Clone, Copy, Debug, PartialEq, Eq)]
pub enum EvaluationFault {
    /// The value is outside 64 bits with a sign.
    IntOverflow,
    /// The divisor is 0.
    ZeroDivisor,
    /// A shift by a number outside 0 to 63.
    Undefined,
}

impl EvaluationFault {
    /// The fault's name in `evaluation_error(Name)`.
    pub fn name(self) -> Atom {
        match self {
            EvaluationFault::IntOverflow => Atom::INT_OVERFLOW,
            EvaluationFault::ZeroDivisor => Atom::ZERO_DIVISOR,
            EvaluationFault::Undefined => Atom::UNDEFINED,
        }
    }
}
