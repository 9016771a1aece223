ghost use Rattle.std.specs.Prelude.{◌≡◌, None, IfOk, IfErr, IfSome, OnOk};
ghost use Rattle.bam_verify.specs.Accepts.{first_reject};
ghost use Rattle.bam_verify.specs.Handed.{HandsBack, IsThere};

use crate::entries::broken_entry;
use crate::procedures::broken_procedure;
use crate::reject::Reject;
use crate::verify_fault::VerifyFault;
use aq_term::memory::Memory;
use bam_code::code::Code;
use bam_types::callees::Callees;
use bam_types::verified::Verified;
use std::alloc::Global;

/// The first entry, or else the first line, that breaks a rule.
pub fn first_reject(alloc: Global, code: &Code) -> Result<Option<Reject>, Memory>
    ensures there { IfOk result (λ found. IfSome found (IsThere code.now)) }
    ensures exact { IfOk result (λ found. found ≡ first_reject code.now) }
{
    let callees = Callees::of(alloc, code)?;
    match broken_entry(&callees, code) {
        Some(broken) => Ok(Some(Reject {
            proc: 0,
            line: broken.line,
            rule: broken.rule,
        })),
        None => broken_procedure(alloc, &callees, code),
    }
}

/// Takes a code as verified where it keeps all rules. Else the fault hands it back, with the first place that breaks a rule: entries
/// come first, then the lines in the order of the text, and for a line the rules in the order of `Rule`, but that the index of `load`
/// is tested after its type.
pub fn verify(alloc: Global, code: Code) -> Result<Verified, VerifyFault>
    ensures ok { IfOk result (λ verified. verified ≡ code) }
    ensures accepted { OnOk result (first_reject code ≡ None) }
    ensures err { IfErr result (HandsBack code) }
{
    match first_reject(alloc, &code) {
        Ok(None) => Ok(Verified::new(code)),
        Ok(Some(reject)) => Err(VerifyFault::Rejected(code, reject)),
        Err(Memory) => Err(VerifyFault::Memory(code)),
    }
}
