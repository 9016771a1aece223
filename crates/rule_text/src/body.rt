ghost use Rattle.std.specs.Prelude.{◌++◌, ℕ, List, codes, IfOk, MatchOption};
ghost use Rattle.source_meaning.specs.Program.{Name};
ghost use Rattle.source_meaning.specs.RuleFront.{IsBody};
ghost use Rattle.source_meaning.specs.RuleProgram.{names_behind};

use crate::name::split_name;
use crate::prefix::text_after;
use aq_term::memory::Memory;
use std::alloc::Global;

/// The goals of a clause, and what stands behind its full stop.
#[derive(Drop)]
pub struct Body<'a> {
    pub goals: Vec<&'a str>,
    pub rest: &'a [u8],
}

/// What stands behind a head: the full stop of a fact, or the goals of a rule with theirs. `None` where it is neither.
pub fn read_body<'a>(alloc: Global, text: &'a [u8]) -> Result<Option<Body<'a>>, Memory>
    ensures { IfOk result (λ found. MatchOption found
        ((goals : List Name) (after : List ℕ) → IsBody text.now goals after → ⊥)
        (λ body. IsBody text.now (names_behind body.goals.items) body.rest.now)) }
{
    if let Some(rest) = text_after(text, b" :- ") {
        return read_goals(alloc, rest);
    }
    let Some(rest) = text_after(text, b".") else {
        return Ok(None);
    };
    let goals = Vec::new(alloc);
    Ok(Some(Body { goals, rest }))
}

/// The goals that stand behind a neck.
fn read_goals<'a>(alloc: Global, text: &'a [u8]) -> Result<Option<Body<'a>>, Memory>
    ensures { IfOk result (λ found. MatchOption found
        ((goals : List Name) (after : List ℕ) → IsBody (codes " :- " ++ text.now) goals after → ⊥)
        (λ body. IsBody (codes " :- " ++ text.now) (names_behind body.goals.items) body.rest.now)) }
{
    let Some(first) = split_name(text) else {
        return Ok(None);
    };
    let mut goals = Vec::new(alloc);
    goals.push(first.name)?;
    let mut rest = first.rest;
    while let Some(behind) = text_after(rest, b", ") {
        let Some(front) = split_name(behind) else {
            return Ok(None);
        };
        goals.push(front.name)?;
        rest = front.rest;
    }
    let Some(rest) = text_after(rest, b".") else {
        return Ok(None);
    };
    Ok(Some(Body { goals, rest }))
}
