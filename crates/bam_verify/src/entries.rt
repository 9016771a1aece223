ghost use Rattle.std.specs.Prelude.{◌≡◌, IfSome};
ghost use Rattle.bam_types.specs.Callees.{procedure_in};
ghost use Rattle.bam_verify.specs.Accepts.{broken_entries};
ghost use Rattle.bam_verify.specs.Handed.{IsNumberOf};
ghost use Rattle.aq_term.specs.declared.rule.Rule.TheVariants as rule;

use crate::broken::Broken;
use aq_term::entry::Entry;
use aq_term::rule::Rule;
use bam_code::code::Code;
use bam_types::callees::Callees;
use bam_types::entry_rule::keeps_entry;

/// The first entry that breaks the rule of entries.
pub fn broken_entry(callees: &Callees, code: &Code) -> Option<Broken>
    ensures there { IfSome result (λ broken. IsNumberOf code.now.entries broken.line × (broken.rule ≡ rule.Entry)) }
    ensures exact { result ≡ broken_entries (procedure_in callees.now code.now) 0 code.now.entries }
{
    broken_among(callees, code, code.entries.as_slice())
}

/// The first of these entries that breaks it.
fn broken_among(callees: &Callees, code: &Code, entries: &[Entry]) -> Option<Broken>
    ensures there { IfSome result (λ broken. IsNumberOf entries.now broken.line × (broken.rule ≡ rule.Entry)) }
    ensures exact { result ≡ broken_entries (procedure_in callees.now code.now) 0 entries.now }
{
    for (at, entry) in entries.iter().enumerate() {
        if !keeps_entry(callees, code, entry) {
            return Some(Broken {
                line: at as u64 + 1,
                rule: Rule::Entry,
            });
        }
    }
    None
}
