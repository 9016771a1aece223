use crate::draft::Draft;
use crate::plan::Plan;
use crate::scope::Scope;
use crate::shape::Shape;
use crate::term::{put_ground_list, put_nonvar, put_term};
use aq_term::memory::Memory;
use aq_term::mode::Mode;

/// The names of variables that stand once in a query, one for each place.
const RESULTS: [&str; 4] = ["W", "X", "Y", "Z"];

/// Puts a call of an entry, with arguments of its modes.
pub fn put_query(draft: &mut Draft, plans: &[Plan]) -> Result<(), Memory> {
    let Some(plan) = asked(draft, plans) else {
        return Ok(());
    };
    draft.put(plan.name())?;
    for place in 0..plan.arity {
        draft.put(if place == 0 { "(" } else { "," })?;
        put_argument(draft, plan, place)?;
    }
    draft.put(if plan.arity == 0 { "" } else { ")" })
}

/// The first predicate, or sometimes the last that has an entry.
fn asked(draft: &mut Draft, plans: &[Plan]) -> Option<Plan> {
    let mut found = plans.first().copied();
    if draft.one_in(4) {
        for plan in plans {
            if plan.is_entry {
                found = Some(*plan);
            }
        }
    }
    found
}

fn put_argument(draft: &mut Draft, plan: Plan, place: u32) -> Result<(), Memory> {
    match plan.mode(place) {
        Mode::Out => draft.put(RESULTS.get(place as usize).copied().unwrap_or("X")),
        _ if place == 0 && plan.shape == Shape::OnLists => put_ground_list(draft),
        _ if place == 0 && plan.shape == Shape::Counting => draft.put_one_of(&[
            "0", "1", "2", "3", "4", "6",
        ]),
        Mode::Ground => put_term(draft, Scope::NONE),
        Mode::Nonvar => put_nonvar(draft, Scope::QUERY),
        Mode::Any => put_term(draft, Scope::QUERY),
    }
}
