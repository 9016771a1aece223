//! Texts of code: whether one is accepted, and several joined to one.
ghost use Rattle.std.specs.Prelude.{◌≡◌, IfErr, IfOk};
ghost use Rattle.aquarius_top.specs.CodeReply.{IsCodeFault, IsJoined, IsPartFault, IsVerifyFault};
ghost use Rattle.aquarius_top.specs.declared.code_texts.CodeFault.TheVariants as fault;

use aq_base::refusal::Refusal;
use aq_term::atoms::Atoms;
use aq_term::memory::Memory;
use bam_code::code::Code;
use bam_text::fault::TextFault;
use bam_text::print::print;
use bam_text::read::read;
use bam_types::verified::Verified;
use bam_verify::verify::verify;
use bam_verify::verify_fault::VerifyFault;
use part_link::codes::Codes;
use part_link::join::join;
use part_link::join_fault::JoinFault;
use part_link::parts::read_parts;
use part_link::parts_fault::PartsFault;
use part_link::verified_parts::VerifiedParts;
use std::alloc::{AllocError, Global};

/// Why a text of code is not taken.
#[derive(Clone, Copy)]
pub enum CodeFault {
    Refused(Refusal),
    Memory,
}

impl From<Memory> for CodeFault {
    ghost from_gives = { λ _ e. e ≡ fault.Memory };

    fn from(_memory: Memory) -> CodeFault {
        CodeFault::Memory
    }
}

/// Tests that the text is one of code that keeps all rules. Else it is refused for its first line outside the grammar, or
/// for the first line, in the order of the text and entries first, that breaks a rule.
pub fn verify_text(alloc: Global, text: &[u8]) -> Result<(), CodeFault>
    ensures { IfErr result (IsVerifyFault text.now) }
{
    let mut atoms = Atoms::new(alloc)?;
    let code = match read(alloc, text, &mut atoms) {
        Ok(code) => code,
        Err(TextFault::Line(line)) => return Err(CodeFault::Refused(Refusal::Text { line })),
        Err(TextFault::Memory) => return Err(CodeFault::Memory),
    };
    match verify(alloc, code) {
        Ok(_verified) => Ok(()),
        Err(VerifyFault::Rejected(_code, reject)) => Err(CodeFault::Refused(Refusal::Reject {
            proc: reject.proc,
            line: reject.line,
            rule: reject.rule,
        })),
        Err(VerifyFault::Memory(_code)) => Err(CodeFault::Memory),
    }
}

/// The text of the code that the parts of a text make. Else it is refused for the first part outside the grammar, for the
/// first part that breaks a rule, for the first procedure with the name of an earlier one, or for the first import that
/// does not agree.
pub fn join_text(alloc: Global, text: &[u8]) -> Result<Vec<u8>, CodeFault>
    ensures joined { IfOk result (λ bytes. IsJoined bytes.items) }
    ensures refused { IfErr result IsCodeFault }
{
    let mut atoms = Atoms::new(alloc)?;
    let codes = match read_parts(alloc, text, &mut atoms) {
        Ok(codes) => codes,
        Err(PartsFault::Line { part, line }) => {
            return Err(CodeFault::Refused(Refusal::PartText { part, line }));
        }
        Err(PartsFault::Memory) => return Err(CodeFault::Memory),
    };
    let parts = verify_parts(alloc, codes)?;
    match join(alloc, &parts) {
        Ok(joined) => Ok(print(alloc, joined.code(), &atoms)?),
        Err(JoinFault::Name(proc)) => Err(CodeFault::Refused(Refusal::JoinName { proc })),
        Err(JoinFault::Import(import)) => Err(CodeFault::Refused(Refusal::JoinImport { import })),
        Err(JoinFault::Memory) => Err(CodeFault::Memory),
    }
}

/// The parts, each of which keeps all rules. Else the first that breaks one is refused.
fn verify_parts(alloc: Global, codes: Codes) -> Result<VerifiedParts, CodeFault>
    ensures { IfErr result IsCodeFault }
{
    let mut parts = VerifiedParts::new(alloc);
    let mut part: u64 = 0;
    for code in codes.into_vec() {
        part = part.saturating_add(1);
        parts.push(verify_part(alloc, part, code)?)?;
    }
    Ok(parts)
}

/// The part of this number, from 1, where it keeps all rules.
fn verify_part(alloc: Global, part: u64, code: Code) -> Result<Verified, CodeFault>
    ensures { IfErr result (IsPartFault part) }
{
    match verify(alloc, code) {
        Ok(verified) => Ok(verified),
        Err(VerifyFault::Rejected(_code, reject)) => Err(CodeFault::Refused(Refusal::PartReject {
            part,
            proc: reject.proc,
            line: reject.line,
            rule: reject.rule,
        })),
        Err(VerifyFault::Memory(_code)) => Err(CodeFault::Memory),
    }
}
