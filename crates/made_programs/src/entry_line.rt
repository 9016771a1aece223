use crate::draft::Draft;
use crate::plan::Plan;
use aq_term::memory::Memory;
use aq_term::mode::Mode;

/// Puts the declarations of all entries, one a line.
pub fn put_entries(draft: &mut Draft, plans: &[Plan]) -> Result<(), Memory> {
    for plan in plans {
        if plan.is_entry {
            put_entry(draft, *plan)?;
        }
    }
    Ok(())
}

fn put_entry(draft: &mut Draft, plan: Plan) -> Result<(), Memory> {
    draft.put(":- entry(")?;
    draft.put(plan.name())?;
    for place in 0..plan.arity {
        draft.put(if place == 0 { "(" } else { "," })?;
        draft.put(word(plan.mode(place)))?;
    }
    draft.put(if plan.arity == 0 { ").\n" } else { ")).\n" })
}

fn word(mode: Mode) -> &'static str {
    match mode {
        Mode::Ground => "ground",
        Mode::Nonvar => "nonvar",
        Mode::Out => "out",
        Mode::Any => "any",
    }
}
