use crate::outcome::Outcome;
use crate::value::Value;
use aq_term::builtin::Builtin;

/// The outcome of a test of a term's kind.
pub fn test_kind(builtin: Builtin, value: Value) -> Option<Outcome> {
    let holds = match builtin {
        Builtin::Var => matches!(value, Value::Variable(_)),
        Builtin::Nonvar => !matches!(value, Value::Variable(_)),
        Builtin::Atom => matches!(value, Value::Atom(_)),
        Builtin::Integer | Builtin::Number => matches!(value, Value::Integer(_)),
        Builtin::Atomic => matches!(value, Value::Atom(_) | Value::Integer(_)),
        Builtin::Compound => matches!(value, Value::Compound(_)),
        _ => return None,
    };
    Some(if holds {
        Outcome::Succeeds
    } else {
        Outcome::Fails
    })
}
