use crate::draft::Draft;
use crate::goal::put_goal;
use crate::plan::Plan;
use crate::scope::Scope;
use crate::term::put_term;
use aq_term::memory::Memory;

/// Puts so many goals with commas between them, of which some hold goals down to a depth.
#[cycle(body)]
pub fn put_body(
    draft: &mut Draft,
    plans: &[Plan],
    caller: Plan,
    scope: Scope,
    count: u32,
    depth: u32,
) -> Result<(), Memory> {
    for number in 0..count {
        if number > 0 {
            draft.put(", ")?;
        }
        put_step(draft, plans, caller, scope, depth)?;
    }
    Ok(())
}

/// Puts one goal of a body.
#[cycle(body)]
fn put_step(
    draft: &mut Draft,
    plans: &[Plan],
    caller: Plan,
    scope: Scope,
    depth: u32,
) -> Result<(), Memory> {
    if depth == 0 || !draft.one_in(4) {
        return put_goal(draft, plans, caller, scope);
    }
    if draft.one_in(6) {
        return put_catch(draft, plans, caller, scope, depth - 1);
    }
    let words = match draft.below(9) {
        0 | 1 => ["( ", " ; ", " )", ""],
        2 => ["( ", " ; ", " ; ", " )"],
        3 | 4 => ["( ", " -> ", " ; ", " )"],
        5 => ["( ", " -> ", " )", ""],
        6 => ["( ( ", " -> ", " ) ; ", " )"],
        _ => ["\\+ ( ", " )", "", ""],
    };
    put_parts(draft, plans, caller, scope, words, depth - 1)
}

/// Puts bodies between the words of a construct, the last of which are empty.
#[cycle(body)]
fn put_parts(
    draft: &mut Draft,
    plans: &[Plan],
    caller: Plan,
    scope: Scope,
    words: [&'static str; 4],
    depth: u32,
) -> Result<(), Memory> {
    for number in 0..4usize {
        let word = words[number];
        draft.put(word)?;
        let is_closed = number == 3 || words[number + 1].is_empty();
        if !is_closed {
            let count = draft.below(2).saturating_add(1);
            put_body(draft, plans, caller, scope, count, depth)?;
        }
    }
    Ok(())
}

/// Puts a catch, of a goal or two, with another for what is caught.
#[cycle(body)]
fn put_catch(
    draft: &mut Draft,
    plans: &[Plan],
    caller: Plan,
    scope: Scope,
    depth: u32,
) -> Result<(), Memory> {
    draft.put("catch(( ")?;
    put_body(draft, plans, caller, scope, 2, depth)?;
    draft.put(" ),")?;
    if draft.one_in(2) {
        draft.put("E")?;
    } else {
        put_term(draft, scope)?;
    }
    draft.put(",( ")?;
    put_body(draft, plans, caller, scope, 1, depth)?;
    draft.put(" ))")
}
