ghost use Rattle.std.specs.Prelude.{◌≡◌, ◌↔◌, ◌<◌, ◌^◌, ◌*ℤ◌, IsTrue, pos};
ghost use Rattle.machine_terms.specs.Arithmetic.{value_of, within, Holds};

use crate::evaluation_fault::EvaluationFault;
use bam_code::arith_op::ArithOp;
use bam_code::comparison::Comparison;

/// What an operation on two integers gives.
pub type Value = Result<i64, EvaluationFault>;

/// The value of an operation on two integers, or why it has none: a value outside 64 bits, a divisor 0, or a shift by a number outside 0
/// to 63. `//` rounds toward zero and `rem` goes with it; `mod` has the divisor's sign; `>>` rounds down.
pub fn operate(operation: ArithOp, left: i64, right: i64) -> Value
    ensures { result ≡ value_of operation left right }
{
    match operation {
        ArithOp::Add => add(left, right),
        ArithOp::Subtract => subtract(left, right),
        ArithOp::Multiply => multiply(left, right),
        ArithOp::Quotient => quotient(left, right),
        ArithOp::Remainder => remainder(left, right),
        ArithOp::Modulo => modulo(left, right),
        ArithOp::ShiftLeft => shift_left(left, right),
        ArithOp::ShiftRight => shift_right(left, right),
        ArithOp::And => Ok(left & right),
        ArithOp::Or => Ok(left | right),
    }
}

/// Whether two integers stand so to each other.
pub fn holds(comparison: Comparison, left: i64, right: i64) -> bool
    ensures { IsTrue result ↔ Holds comparison left right }
{
    match comparison {
        Comparison::Less => left < right,
        Comparison::AtMost => left <= right,
        Comparison::Greater => left > right,
        Comparison::AtLeast => left >= right,
        Comparison::Equal => left == right,
        Comparison::NotEqual => left != right,
    }
}

fn add(left: i64, right: i64) -> Value
    ensures { result ≡ value_of ArithOp.Add left right }
{
    match left.checked_add(right) {
        Some(value) => Ok(value),
        None => Err(EvaluationFault::IntOverflow),
    }
}

fn subtract(left: i64, right: i64) -> Value
    ensures { result ≡ value_of ArithOp.Subtract left right }
{
    match left.checked_sub(right) {
        Some(value) => Ok(value),
        None => Err(EvaluationFault::IntOverflow),
    }
}

fn multiply(left: i64, right: i64) -> Value
    ensures { result ≡ value_of ArithOp.Multiply left right }
{
    match left.checked_mul(right) {
        Some(value) => Ok(value),
        None => Err(EvaluationFault::IntOverflow),
    }
}

fn quotient(left: i64, right: i64) -> Value
    ensures { result ≡ value_of ArithOp.Quotient left right }
{
    if right == 0 {
        return Err(EvaluationFault::ZeroDivisor);
    }
    match left.checked_div(right) {
        Some(value) => Ok(value),
        None => Err(EvaluationFault::IntOverflow),
    }
}

fn remainder(left: i64, right: i64) -> Value
    ensures { result ≡ value_of ArithOp.Remainder left right }
{
    match right {
        0 => Err(EvaluationFault::ZeroDivisor),
        // the least integer has no quotient by -1
        -1 => Ok(0),
        _ => Ok(left % right),
    }
}

fn modulo(left: i64, right: i64) -> Value
    ensures { result ≡ value_of ArithOp.Modulo left right }
{
    match right {
        0 => Err(EvaluationFault::ZeroDivisor),
        // the least integer has no quotient by -1
        -1 => Ok(0),
        _ => {
            let left_over = left.rem_euclid(right);
            if right < 0 && left_over != 0 {
                Ok(left_over + right)
            } else {
                Ok(left_over)
            }
        }
    }
}

fn shift_left(left: i64, right: i64) -> Value
    ensures { result ≡ value_of ArithOp.ShiftLeft left right }
{
    if right < 0 || right > 63 {
        return Err(EvaluationFault::Undefined);
    }
    if right == 63 {
        return highest_bit(left);
    }
    shift_low(left, right as u32)
}

/// The shift by at most 62 bits.
fn shift_low(left: i64, places: u32) -> Value
    requires { places < 63 }
    ensures { result ≡ within (left *ℤ pos (2 ^ places)) }
{
    match left.checked_mul(power_of_two(places)) {
        Some(value) => Ok(value),
        None => Err(EvaluationFault::IntOverflow),
    }
}

#[tactic(auto, using(crate::proofs::Powers::below_half, crate::proofs::Powers::one_shifted_low))]
fn power_of_two(exponent: u32) -> i64
    requires { exponent < 63 }
    ensures { result ≡ pos (2 ^ exponent) }
{
    (1u64 << exponent) as i64
}

/// The shift by 63, which but two integers have.
fn highest_bit(left: i64) -> Value
    ensures { result ≡ value_of ArithOp.ShiftLeft left (pos 63) }
{
    match left {
        0 => Ok(0),
        -1 => Ok(i64::MIN),
        _ => Err(EvaluationFault::IntOverflow),
    }
}

fn shift_right(left: i64, right: i64) -> Value
    ensures { result ≡ value_of ArithOp.ShiftRight left right }
{
    if right < 0 || right > 63 {
        return Err(EvaluationFault::Undefined);
    }
    Ok(left >> right)
}
