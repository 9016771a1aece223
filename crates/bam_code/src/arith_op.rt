/// An operation on two integers.
#[derive(Clone, Copy, Debug, PartialEq, Eq)]
pub enum ArithOp {
    Add,
    Subtract,
    Multiply,
    /// The quotient toward zero.
    Quotient,
    /// What is left by the quotient toward zero.
    Remainder,
    /// What is left by the quotient toward minus infinity.
    Modulo,
    ShiftLeft,
    ShiftRight,
    /// Bit by bit.
    And,
    /// Bit by bit.
    Or,
}
