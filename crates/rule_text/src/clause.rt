ghost use Rattle.std.specs.Prelude.{ℕ, List, IfOk, MatchOption};
ghost use Rattle.source_meaning.specs.Program.{Clause};
ghost use Rattle.source_meaning.specs.RuleFront.{IsClause, AreClauses};
ghost use Rattle.source_meaning.specs.RuleProgram.{clause_of, clauses_of};

use crate::body::read_body;
use crate::layout::behind_stop;
use crate::name::split_name;
use aq_term::memory::Memory;
use source_meaning::rule_program::RuleClause;
use std::alloc::Global;

/// A clause in front of a text, and what stands behind its full stop.
#[derive(Drop)]
struct ClauseFront<'a> {
    clause: RuleClause<'a>,
    rest: &'a [u8],
}

/// The clauses from here to the text's end, each with layout behind its full stop unless it is the last, or `None` where
/// something else stands there.
pub fn read_clauses<'a>(
    alloc: Global,
    text: &'a [u8],
) -> Result<Option<Vec<RuleClause<'a>>>, Memory>
    ensures { IfOk result (λ found. MatchOption found
        ((clauses : List Clause) → AreClauses text.now clauses → ⊥)
        (λ clauses. AreClauses text.now (clauses_of clauses.items))) }
{
    let mut clauses = Vec::new(alloc);
    let mut rest = text;
    while !rest.is_empty() {
        let Some(front) = read_clause(alloc, rest)? else {
            return Ok(None);
        };
        let Some(behind) = behind_stop(front.rest) else {
            return Ok(None);
        };
        clauses.push(front.clause)?;
        rest = behind;
    }
    Ok(Some(clauses))
}

/// The fact or the rule in front of the text, or `None` where there is none.
fn read_clause<'a>(alloc: Global, text: &'a [u8]) -> Result<Option<ClauseFront<'a>>, Memory>
    ensures { IfOk result (λ found. MatchOption found
        ((clause : Clause) (after : List ℕ) → IsClause text.now clause after → ⊥)
        (λ front. IsClause text.now (clause_of front.clause) front.rest.now)) }
{
    let Some(head) = split_name(text) else {
        return Ok(None);
    };
    let Some(body) = read_body(alloc, head.rest)? else {
        return Ok(None);
    };
    let clause = RuleClause {
        head: head.name,
        body: body.goals,
    };
    Ok(Some(ClauseFront {
        clause,
        rest: body.rest,
    }))
}
