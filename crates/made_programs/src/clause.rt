use crate::body::put_body;
use crate::draft::Draft;
use crate::plan::Plan;
use crate::scope::Scope;
use crate::shape::Shape;
use crate::style::Style;
use crate::term::{put_constant, put_leaf, put_term};
use aq_term::memory::Memory;

/// How deep goals stand in goals.
const DEPTH: u32 = 2;

/// Puts the clauses of a predicate, one a line.
pub fn put_clauses(draft: &mut Draft, plans: &[Plan], plan: Plan) -> Result<(), Memory> {
    match plan.shape {
        Shape::Plain => {
            let more = draft.below(4).min(4);
            for _ in 0..1 + more {
                put_plain(draft, plans, plan)?;
            }
            Ok(())
        }
        Shape::OnLists => {
            put_last(draft, plan, "[]")?;
            put_recursive(draft, plans, plan, "[A|B]")?;
            if draft.one_in(4) {
                put_recursive(draft, plans, plan, "[_,A|B]")?;
            }
            Ok(())
        }
        Shape::Counting => {
            put_last(draft, plan, "0")?;
            put_recursive(draft, plans, plan, "A")
        }
    }
}

/// Puts any clause.
fn put_plain(draft: &mut Draft, plans: &[Plan], plan: Plan) -> Result<(), Memory> {
    let more = draft.below(4);
    let scope = Scope::of_clause(plan.arity.saturating_add(more));
    draft.put(plan.name())?;
    for place in 0..plan.arity {
        draft.put(if place == 0 { "(" } else { "," })?;
        if draft.one_in(3) {
            put_term(draft, scope)?;
        } else {
            draft.put(scope.name(place))?;
        }
    }
    draft.put(if plan.arity == 0 { "" } else { ")" })?;
    let count = draft.below(5);
    if count > 0 {
        draft.put(" :- ")?;
        put_body(draft, plans, plan, scope, count, DEPTH)?;
    }
    draft.put(".\n")
}

/// Puts the clause where a recursion ends, of a first argument.
fn put_last(draft: &mut Draft, plan: Plan, first: &str) -> Result<(), Memory> {
    draft.put(plan.name())?;
    draft.put("(")?;
    draft.put(first)?;
    for place in 1..plan.arity {
        draft.put(",")?;
        match plan.style(place) {
            Style::Kept => put_leaf(draft, Scope::of_clause(3))?,
            Style::Built => draft.put("[]")?,
            Style::Gathered => put_constant(draft)?,
            Style::Summed => draft.put("0")?,
        }
    }
    draft.put_one_of(&[").\n", ").\n", ").\n", ") :- !.\n", ") :- true.\n"])
}

/// Puts a clause that calls its predicate at its end or near it, of a first argument whose rest is B.
fn put_recursive(draft: &mut Draft, plans: &[Plan], plan: Plan, first: &str) -> Result<(), Memory> {
    let more = draft.below(3);
    let scope = Scope::of_clause(plan.arity.saturating_add(1).saturating_add(more));
    draft.put(plan.name())?;
    draft.put("(")?;
    draft.put(first)?;
    put_further(draft, plan, ["", "[A|", "", "New"])?;
    draft.put(") :- ")?;
    if plan.shape == Shape::Counting {
        draft.put("A > 0, B is A - 1, ")?;
    }
    let count = draft.below(3);
    put_body(draft, plans, plan, scope, count, 1)?;
    draft.put(if count == 0 { "" } else { ", " })?;
    draft.put(plan.name())?;
    draft.put("(B")?;
    put_further(draft, plan, ["", "", "[A|", ""])?;
    draft.put(")")?;
    put_sums(draft, plan)?;
    if draft.one_in(4) {
        draft.put(", ")?;
        put_body(draft, plans, plan, scope, 1, 1)?;
    }
    draft.put(".\n")
}

/// Puts the arguments behind the first, each with what its style wants before its variable.
fn put_further(draft: &mut Draft, plan: Plan, before: [&'static str; 4]) -> Result<(), Memory> {
    let [kept, built, gathered, summed] = before;
    for place in 1..plan.arity {
        draft.put(",")?;
        let opening = match plan.style(place) {
            Style::Kept => kept,
            Style::Built => built,
            Style::Gathered => gathered,
            Style::Summed => summed,
        };
        draft.put(opening)?;
        draft.put(Scope::of_clause(8).name(place.saturating_add(1)))?;
        draft.put(if opening == "[A|" { "]" } else { "" })?;
    }
    Ok(())
}

/// Puts the goals of the arguments that are sums.
fn put_sums(draft: &mut Draft, plan: Plan) -> Result<(), Memory> {
    for place in 1..plan.arity {
        if plan.style(place) == Style::Summed {
            let name = Scope::of_clause(8).name(place.saturating_add(1));
            draft.put(", New")?;
            draft.put(name)?;
            draft.put(" is ")?;
            draft.put(name)?;
            draft.put_one_of(&[" + 1", " + 2", " * 2", " - 1", " + A"])?;
        }
    }
    Ok(())
}
