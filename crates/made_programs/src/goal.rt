use crate::built_in::put_built_in;
use crate::draft::Draft;
use crate::plan::Plan;
use crate::scope::Scope;
use crate::shape::Shape;
use crate::term::{put_ground_list, put_leaf, put_term, put_variable};
use aq_term::memory::Memory;

/// Puts a goal that holds no other goals. A call names a later predicate than the caller for the most part, so that most runs end.
pub fn put_goal(
    draft: &mut Draft,
    plans: &[Plan],
    caller: Plan,
    scope: Scope,
) -> Result<(), Memory> {
    match draft.below(32) {
        0 => put_throw(draft, scope),
        1 => draft.put_one_of(&["true", "true", "true", "fail", "missing", "missing(A)"]),
        2 | 3 => draft.put("!"),
        4..=15 => put_some_call(draft, plans, caller, scope),
        _ => put_built_in(draft, scope),
    }
}

fn put_throw(draft: &mut Draft, scope: Scope) -> Result<(), Memory> {
    draft.put("throw(")?;
    put_term(draft, scope)?;
    draft.put(")")
}

/// Puts a call of a predicate behind the caller, now and then of any one, and a built-in where there is none.
fn put_some_call(
    draft: &mut Draft,
    plans: &[Plan],
    caller: Plan,
    scope: Scope,
) -> Result<(), Memory> {
    let count = plans.len().min(6) as u32;
    let number = if draft.one_in(12) {
        draft.below(count)
    } else {
        let first = caller.number.saturating_add(1);
        first.saturating_add(draft.below(count.saturating_sub(first)))
    };
    match plans.get(number as usize) {
        Some(callee) => put_call(draft, *callee, scope),
        None => put_built_in(draft, scope),
    }
}

/// Puts a call.
fn put_call(draft: &mut Draft, callee: Plan, scope: Scope) -> Result<(), Memory> {
    draft.put(callee.name())?;
    for place in 0..callee.arity {
        draft.put(if place == 0 { "(" } else { "," })?;
        if place == 0 && draft.one_in(2) {
            put_first(draft, callee, scope)?;
        } else if draft.one_in(3) {
            put_term(draft, scope)?;
        } else {
            put_variable(draft, scope)?;
        }
    }
    draft.put(if callee.arity == 0 { "" } else { ")" })
}

/// Puts a first argument that a predicate can go down.
fn put_first(draft: &mut Draft, callee: Plan, scope: Scope) -> Result<(), Memory> {
    match callee.shape {
        Shape::Plain => put_leaf(draft, scope),
        Shape::OnLists => put_ground_list(draft),
        Shape::Counting => draft.put_one_of(&["0", "1", "2", "3", "4"]),
    }
}
