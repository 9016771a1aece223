ghost use Rattle.std.specs.Prelude.{IfOk, MatchOption};
ghost use Rattle.source_meaning.specs.Program.{Program};
ghost use Rattle.source_meaning.specs.RuleText.{IsRuleText};
ghost use Rattle.source_meaning.specs.RuleProgram.{program_of};

use crate::clause::read_clauses;
use crate::entry::read_entry;
use crate::layout::behind_stop;
use aq_term::memory::Memory;
use source_meaning::rule_program::RuleProgram;
use std::alloc::Global;

/// The program that the text is written from, its names lent from the text, or `None` where it is written from none.
/// Names that are called need no clauses, nor does the entry.
pub fn read_rule_text<'a>(alloc: Global, text: &'a [u8]) -> Result<Option<RuleProgram<'a>>, Memory>
    ensures { IfOk result (λ found. MatchOption found
        ((program : Program) → IsRuleText text.now program → ⊥)
        (λ read. IsRuleText text.now (program_of read))) }
{
    let Some(entry) = read_entry(text) else {
        return Ok(None);
    };
    let Some(rest) = behind_stop(entry.rest) else {
        return Ok(None);
    };
    let Some(clauses) = read_clauses(alloc, rest)? else {
        return Ok(None);
    };
    Ok(Some(RuleProgram {
        entry: entry.name,
        clauses,
    }))
}
