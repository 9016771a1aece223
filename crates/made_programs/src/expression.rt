use crate::draft::Draft;
use crate::scope::Scope;
use crate::term::{put_leaf, put_variable};
use aq_term::memory::Memory;

/// Integers of expressions.
const INTEGERS: [&str; 10] = [
    "0",
    "1",
    "2",
    "3",
    "5",
    "-1",
    "-4",
    "63",
    "64",
    "9223372036854775807",
];

/// Operations of two numbers.
const OPERATIONS: [&str; 10] = [
    " + ", " - ", " * ", " // ", " mod ", " rem ", " << ", " >> ", " /\\ ", " \\/ ",
];

/// Puts an expression of one to seven numbers and variables.
pub fn put_expression(draft: &mut Draft, scope: Scope) -> Result<(), Memory> {
    match draft.below(12) {
        0..=3 => put_operand(draft, scope),
        4 | 5 => {
            draft.put("(")?;
            put_operation(draft, scope)?;
            draft.put_one_of(&OPERATIONS)?;
            put_operation(draft, scope)?;
            draft.put(")")
        }
        6 => {
            draft.put_one_of(&["- ", "\\ "])?;
            put_operation(draft, scope)
        }
        7 => put_leaf(draft, scope),
        _ => put_operation(draft, scope),
    }
}

/// Puts an operation of one or two operands, in brackets.
fn put_operation(draft: &mut Draft, scope: Scope) -> Result<(), Memory> {
    draft.put("(")?;
    if draft.one_in(6) {
        draft.put_one_of(&["- (", "\\ ("])?;
        put_operand(draft, scope)?;
        return draft.put("))");
    }
    put_operand(draft, scope)?;
    draft.put_one_of(&OPERATIONS)?;
    put_operand(draft, scope)?;
    draft.put(")")
}

/// Puts a number or a variable.
fn put_operand(draft: &mut Draft, scope: Scope) -> Result<(), Memory> {
    if draft.one_in(4) {
        return put_variable(draft, scope);
    }
    draft.put_one_of(&INTEGERS)
}
