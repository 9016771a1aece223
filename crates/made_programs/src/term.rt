use crate::draft::Draft;
use crate::scope::Scope;
use aq_term::memory::Memory;

/// Atoms as they stand in terms.
const ATOMS: [&str; 8] = ["a", "b", "c", "[]", "foo", "'X y'", "{}", "'don''t'"];

/// Integers of terms.
const INTEGERS: [&str; 8] = ["0", "1", "2", "3", "-1", "-7", "100", "0'a"];

/// What compounds begin with.
const OPENINGS: [&str; 4] = ["f(", "g(", "h(", "'A'("];

/// What stands between the two arguments of a compound with an operator.
const OPERATORS: [&str; 5] = [" + ", " - ", " = ", " :- ", " * "];

/// Puts a term of up to three levels, over the variables of a scope.
pub fn put_term(draft: &mut Draft, scope: Scope) -> Result<(), Memory> {
    if draft.one_in(2) {
        return put_leaf(draft, scope);
    }
    put_structure(draft, scope)
}

/// Puts a term that is no variable.
pub fn put_nonvar(draft: &mut Draft, scope: Scope) -> Result<(), Memory> {
    if draft.one_in(4) {
        return put_constant(draft);
    }
    put_structure(draft, scope)
}

/// Puts a variable, or a constant.
pub fn put_leaf(draft: &mut Draft, scope: Scope) -> Result<(), Memory> {
    if draft.one_in(3) {
        return put_constant(draft);
    }
    put_variable(draft, scope)
}

/// Puts a variable of the scope, sometimes a new one, or a constant where the scope has none.
pub fn put_variable(draft: &mut Draft, scope: Scope) -> Result<(), Memory> {
    if scope.count() == 0 {
        return put_constant(draft);
    }
    if draft.one_in(15) {
        return draft.put("_");
    }
    let number = draft.below(scope.count());
    draft.put(scope.name(number))
}

/// Puts an atom or an integer.
pub fn put_constant(draft: &mut Draft) -> Result<(), Memory> {
    if draft.one_in(2) {
        return draft.put_one_of(&INTEGERS);
    }
    draft.put_one_of(&ATOMS)
}

/// Puts a list without a tail, of up to three elements without variables.
pub fn put_ground_list(draft: &mut Draft) -> Result<(), Memory> {
    let count = draft.below(4);
    draft.put("[")?;
    put_inners(draft, Scope::NONE, count)?;
    draft.put("]")
}

/// Puts a list or a compound.
fn put_structure(draft: &mut Draft, scope: Scope) -> Result<(), Memory> {
    match draft.below(5) {
        0 | 1 => put_list(draft, scope),
        2 | 3 => put_compound(draft, scope),
        _ => put_pair(draft, scope),
    }
}

/// Puts a list of up to three elements, sometimes with a tail.
fn put_list(draft: &mut Draft, scope: Scope) -> Result<(), Memory> {
    let count = draft.below(4);
    draft.put("[")?;
    put_inners(draft, scope, count)?;
    if count > 0 && draft.one_in(3) {
        draft.put("|")?;
        put_leaf(draft, scope)?;
    }
    draft.put("]")
}

/// Puts a compound of one to three arguments.
fn put_compound(draft: &mut Draft, scope: Scope) -> Result<(), Memory> {
    draft.put_one_of(&OPENINGS)?;
    let more = draft.below(3);
    put_inners(draft, scope, more.saturating_add(1))?;
    draft.put(")")
}

/// Puts a compound with an operator, in brackets.
fn put_pair(draft: &mut Draft, scope: Scope) -> Result<(), Memory> {
    draft.put("(")?;
    put_inner(draft, scope)?;
    draft.put_one_of(&OPERATORS)?;
    put_inner(draft, scope)?;
    draft.put(")")
}

/// Puts so many terms of up to two levels, with commas between them.
fn put_inners(draft: &mut Draft, scope: Scope, count: u32) -> Result<(), Memory> {
    for number in 0..count {
        if number > 0 {
            draft.put(",")?;
        }
        put_inner(draft, scope)?;
    }
    Ok(())
}

/// Puts a term of up to two levels.
fn put_inner(draft: &mut Draft, scope: Scope) -> Result<(), Memory> {
    match draft.below(7) {
        0 => put_enclosed(draft, scope, "[", "]"),
        1 => put_enclosed(draft, scope, "g(", ")"),
        _ => put_leaf(draft, scope),
    }
}

/// Puts one or two leaves, between brackets.
fn put_enclosed(
    draft: &mut Draft,
    scope: Scope,
    opening: &str,
    closing: &str,
) -> Result<(), Memory> {
    draft.put(opening)?;
    put_leaf(draft, scope)?;
    if draft.one_in(2) {
        draft.put(",")?;
        put_leaf(draft, scope)?;
    }
    draft.put(closing)
}
