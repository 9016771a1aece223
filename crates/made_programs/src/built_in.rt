use crate::draft::Draft;
use crate::expression::put_expression;
use crate::scope::Scope;
use crate::term::{put_leaf, put_nonvar, put_term, put_variable};
use aq_term::memory::Memory;

/// The tests of one argument, up to its bracket.
const KINDS: [&str; 7] = [
    "var(",
    "nonvar(",
    "atom(",
    "integer(",
    "number(",
    "atomic(",
    "compound(",
];

/// The tests of two terms.
const ORDERS: [&str; 6] = [" == ", " \\== ", " @< ", " @=< ", " @> ", " @>= "];

/// The tests of two values.
const COMPARISONS: [&str; 6] = [" < ", " =< ", " > ", " >= ", " =:= ", " =\\= "];

/// Characters, and things that are none.
const CHARACTERS: [&str; 6] = ["a", "'\\n'", "'«'", "1", "ab", "A"];

/// Puts a goal that is a built-in. Some raise errors.
pub fn put_built_in(draft: &mut Draft, scope: Scope) -> Result<(), Memory> {
    match draft.below(20) {
        0..=7 => put_between(draft, scope, &[" = ", " = ", " = ", " = ", " = ", " \\= "]),
        8 => put_kind(draft, scope),
        9 | 10 => put_between(draft, scope, &ORDERS),
        11 => put_compare(draft, scope),
        12 | 13 => put_is(draft, scope),
        14 => put_comparison(draft, scope),
        15 | 16 => put_taking_apart(draft, scope),
        _ => put_output(draft, scope),
    }
}

/// Puts a goal of two terms with an operator between them.
fn put_between(draft: &mut Draft, scope: Scope, operators: &[&'static str]) -> Result<(), Memory> {
    if draft.one_in(8) {
        put_leaf(draft, scope)?;
    } else {
        put_variable(draft, scope)?;
    }
    draft.put_one_of(operators)?;
    put_term(draft, scope)
}

fn put_kind(draft: &mut Draft, scope: Scope) -> Result<(), Memory> {
    draft.put_one_of(&KINDS)?;
    if draft.one_in(5) {
        put_term(draft, scope)?;
    } else {
        put_variable(draft, scope)?;
    }
    draft.put(")")
}

fn put_compare(draft: &mut Draft, scope: Scope) -> Result<(), Memory> {
    draft.put("compare(")?;
    put_variable(draft, scope)?;
    draft.put(",")?;
    put_term(draft, scope)?;
    draft.put(",")?;
    put_term(draft, scope)?;
    draft.put(")")
}

fn put_is(draft: &mut Draft, scope: Scope) -> Result<(), Memory> {
    if draft.one_in(12) {
        put_term(draft, scope)?;
    } else {
        put_variable(draft, scope)?;
    }
    draft.put(" is ")?;
    put_expression(draft, scope)
}

fn put_comparison(draft: &mut Draft, scope: Scope) -> Result<(), Memory> {
    put_expression(draft, scope)?;
    draft.put_one_of(&COMPARISONS)?;
    put_expression(draft, scope)
}

/// Puts a goal that takes a term apart, makes one of parts, or copies one.
fn put_taking_apart(draft: &mut Draft, scope: Scope) -> Result<(), Memory> {
    match draft.below(6) {
        0 => {
            draft.put("functor(")?;
            put_term(draft, scope)?;
            draft.put(",")?;
            put_leaf(draft, scope)?;
            draft.put(",")?;
            put_leaf(draft, scope)?;
            draft.put(")")
        }
        1 => {
            draft.put_one_of(&["arg(1,", "arg(2,", "arg(A,", "arg(B,", "arg(-1,", "arg(a,"])?;
            put_term(draft, scope)?;
            draft.put(",")?;
            put_leaf(draft, scope)?;
            draft.put(")")
        }
        2 => put_between(draft, scope, &[" =.. "]),
        3 => put_univ(draft, scope),
        _ => {
            draft.put("copy_term(")?;
            put_nonvar(draft, scope)?;
            draft.put(",")?;
            put_leaf(draft, scope)?;
            draft.put(")")
        }
    }
}

/// Puts a term's name and arguments as a list.
fn put_univ(draft: &mut Draft, scope: Scope) -> Result<(), Memory> {
    put_term(draft, scope)?;
    draft.put_one_of(&[
        " =.. [f,",
        " =.. [g,",
        " =.. [C,",
        " =.. [1,",
        " =.. [a|",
        " =.. [f(x),",
    ])?;
    put_leaf(draft, scope)?;
    draft.put("]")
}

fn put_output(draft: &mut Draft, scope: Scope) -> Result<(), Memory> {
    match draft.below(5) {
        0 => draft.put("nl"),
        1 => {
            draft.put("put_char(")?;
            draft.put_one_of(&CHARACTERS)?;
            draft.put(")")
        }
        _ => {
            draft.put_one_of(&["write(", "writeq("])?;
            put_term(draft, scope)?;
            draft.put(")")
        }
    }
}
