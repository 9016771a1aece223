//! The terms of errors, as a catcher sees them within `error(E,[])`.

use crate::arithmetic::ArithmeticFault;
use crate::halt::Halt;
use crate::terms::Terms;
use crate::value::Value;
use aq_term::atom::Atom;

/// `error(E,[])` for the error E.
pub fn ball_of(terms: &mut Terms, error: Value) -> Result<Value, Halt> {
    Ok(terms.compound(Atom::ERROR, &[error, Value::Atom(Atom::NIL)])?)
}

/// `instantiation_error`
pub fn instantiation() -> Value {
    Value::Atom(Atom::INSTANTIATION_ERROR)
}

/// `type_error(KIND,CULPRIT)`
pub fn type_error(terms: &mut Terms, kind: Atom, culprit: Value) -> Result<Value, Halt> {
    Ok(terms.compound(Atom::TYPE_ERROR, &[Value::Atom(kind), culprit])?)
}

/// `domain_error(KIND,CULPRIT)`
pub fn domain_error(terms: &mut Terms, kind: Atom, culprit: Value) -> Result<Value, Halt> {
    Ok(terms.compound(Atom::DOMAIN_ERROR, &[Value::Atom(kind), culprit])?)
}

/// `representation_error(max_arity)`
pub fn too_many_arguments(terms: &mut Terms) -> Result<Value, Halt> {
    Ok(terms.compound(Atom::REPRESENTATION_ERROR, &[Value::Atom(Atom::MAX_ARITY)])?)
}

/// `evaluation_error(..)`
pub fn evaluation_error(terms: &mut Terms, fault: ArithmeticFault) -> Result<Value, Halt> {
    let kind = match fault {
        ArithmeticFault::Overflow => Atom::INT_OVERFLOW,
        ArithmeticFault::ZeroDivisor => Atom::ZERO_DIVISOR,
        ArithmeticFault::Undefined => Atom::UNDEFINED,
    };
    Ok(terms.compound(Atom::EVALUATION_ERROR, &[Value::Atom(kind)])?)
}

/// `NAME/ARITY`
fn indicator(terms: &mut Terms, name: Atom, arity: usize) -> Result<Value, Halt> {
    let Ok(arity) = i64::try_from(arity) else {
        return Err(Halt::Lost);
    };
    Ok(terms.compound(Atom::SLASH, &[Value::Atom(name), Value::Integer(arity)])?)
}

/// `type_error(evaluable,NAME/ARITY)`
pub fn not_evaluable(terms: &mut Terms, name: Atom, arity: usize) -> Result<Value, Halt> {
    let culprit = indicator(terms, name, arity)?;
    type_error(terms, Atom::EVALUABLE, culprit)
}

/// `existence_error(procedure,NAME/ARITY)`
pub fn no_procedure(terms: &mut Terms, name: Atom, arity: usize) -> Result<Value, Halt> {
    let culprit = indicator(terms, name, arity)?;
    Ok(terms.compound(
        Atom::EXISTENCE_ERROR,
        &[Value::Atom(Atom::PROCEDURE), culprit],
    )?)
}
