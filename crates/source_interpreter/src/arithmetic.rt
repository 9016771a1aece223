//! The operations on integers of 64 bits.

use crate::operation::Operation;

/// Why an operation has no value.
#[derive(Clone, Copy, Debug, PartialEq, Eq)]
pub enum ArithmeticFault {
    /// The value is outside 64 bits.
    Overflow,
    ZeroDivisor,
    /// A shift by less than 0 or more than 63 places.
    Undefined,
}

/// The value of an operation; one with a single operand takes it as `y`.
pub fn value_of(operation: Operation, x: i64, y: i64) -> Result<i64, ArithmeticFault> {
    match operation {
        Operation::Add => within(x.checked_add(y)),
        Operation::Subtract => within(x.checked_sub(y)),
        Operation::Multiply => within(x.checked_mul(y)),
        Operation::Negate => within(y.checked_neg()),
        Operation::Quotient => quotient(x, y),
        Operation::Remainder => remainder(x, y),
        Operation::Modulo => modulo(x, y),
        Operation::ShiftLeft => shift_left(x, y),
        Operation::ShiftRight => shift_right(x, y),
        Operation::And => Ok(x & y),
        Operation::Or => Ok(x | y),
        Operation::Complement => Ok(!y),
    }
}

/// A value where there is one in 64 bits.
fn within(value: Option<i64>) -> Result<i64, ArithmeticFault> {
    value.ok_or(ArithmeticFault::Overflow)
}

/// The quotient toward zero.
fn quotient(x: i64, y: i64) -> Result<i64, ArithmeticFault> {
    if y == 0 {
        return Err(ArithmeticFault::ZeroDivisor);
    }
    within(x.checked_div(y))
}

/// `x - (x // y) * y`, and 0 where y is -1.
fn remainder(x: i64, y: i64) -> Result<i64, ArithmeticFault> {
    match y {
        0 => Err(ArithmeticFault::ZeroDivisor),
        -1 => Ok(0),
        _ => within(x.checked_rem(y)),
    }
}

/// The remainder with the sign of y.
fn modulo(x: i64, y: i64) -> Result<i64, ArithmeticFault> {
    let rest = remainder(x, y)?;
    if rest != 0 && (rest < 0) != (y < 0) {
        within(rest.checked_add(y))
    } else {
        Ok(rest)
    }
}

/// How many places a shift goes, 0 to 63.
fn places(y: i64) -> Result<u32, ArithmeticFault> {
    match u32::try_from(y) {
        Ok(places) if places < 64 => Ok(places),
        _ => Err(ArithmeticFault::Undefined),
    }
}

/// `x` doubled as often as y says.
fn shift_left(x: i64, y: i64) -> Result<i64, ArithmeticFault> {
    let mut value = x;
    for _ in 0..places(y)? {
        value = within(value.checked_mul(2))?;
    }
    Ok(value)
}

/// `x` halved downward as often as y says.
fn shift_right(x: i64, y: i64) -> Result<i64, ArithmeticFault> {
    let mut value = x;
    for _ in 0..places(y)? {
        value = value.div_euclid(2);
    }
    Ok(value)
}
