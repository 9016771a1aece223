//! Parts that are joined.

use aq_term::atoms::Atoms;
use bam_code::code::Code;
use bam_text::fault::TextFault;
use bam_text::print::print;
use bam_text::read::read;
use bam_types::verified::Verified;
use bam_verify::reject::Reject;
use bam_verify::verify::{first_reject, verify};
use bam_verify::verify_fault::VerifyFault;
use part_link::join::join;
use part_link::join_fault::JoinFault;
use part_link::verified_parts::VerifiedParts;
use std::alloc::Global;
use std::test::Fail;

/// Parts between ` // `, with lines between ` / `, and then the joined text, or what the line of the refusal says.
const PARTS: &str = "\
bam 1 / entry 'p'/0 / import 'q'/0 -> / proc 'p'/0 -> / exec 'q'/0 / end // bam 1 / proc 'q'/0 -> / return / end | bam 1 / entry 'p'/0 / proc 'p'/0 -> / exec 'q'/0 / end / proc 'q'/0 -> / return / end
bam 1 / entry 'p'/0 / import 'q'/0 -> / proc 'p'/0 -> / exec 'q'/0 / end // bam 1 / proc 'p'/0 -> / return / end | join name 2
bam 1 / entry 'p'/0 / import 'q'/0 -> / proc 'p'/0 -> / exec 'q'/0 / end // bam 1 / return / end | part 2 line 2
bam 1 / import 'q'/1 any -> any // bam 1 / proc 'q'/1 ground -> ground / return / end | join import 1
bam 1 | bam 1
bam 1 // bam 1 | bam 1
bam 1 / proc 'p'/0 -> / return / end | bam 1 / proc 'p'/0 -> / return / end
bam 2 | part 1 line 2
bam 1 / proc 'p'/0 -> / return / end // bam 1 / proc 'q'/0 -> / move r0 r1 / return / end | part 2 proc 1 line 1: unset
bam 1 / entry 'p'/0 // bam 1 / proc 'p'/0 -> / return / end | part 1 proc 0 line 1: entry
bam 1 / proc 'p'/0 -> / return / end // bam 1 / proc 'q'/0 -> / return / end / proc 'p'/0 -> / return / end | join name 3
bam 1 / proc 'p'/0 -> / return / end // bam 1 / proc 'p'/0#1/0 -> / return / end | bam 1 / proc 'p'/0 -> / return / end / proc 'p'/0#1/0 -> / return / end
bam 1 / import 'q'/1 any -> any // bam 1 / import 'q'/1 any -> any | bam 1 / import 'q'/1 any -> any
bam 1 / import 'q'/1 any -> any // bam 1 / import 'q'/1 any -> nonvar | join import 2
bam 1 / import 'q'/1 any -> any // bam 1 / import 'q'/1 ground -> any | join import 2
bam 1 / import 'q'/1 any -> any / import 'r'/0 -> // bam 1 / import 'r'/0 -> / import 's'/0 -> / import 'q'/1 any -> any | bam 1 / import 'q'/1 any -> any / import 'r'/0 -> / import 's'/0 ->
bam 1 / proc 'q'/1 any -> any / return / end // bam 1 / import 'q'/1 any -> any | bam 1 / proc 'q'/1 any -> any / return / end
bam 1 / proc 'q'/1 any -> any / return / end // bam 1 / import 'q'/1 any -> nonvar | join import 1
bam 1 / import 'q'/1 any -> nonvar // bam 1 / import 'q'/1 any -> any // bam 1 / proc 'q'/1 any -> any / return / end | join import 1
bam 1 / import 'q'/1 any -> any // bam 1 / import 'q'/1 any -> nonvar // bam 1 / proc 'q'/1 any -> any / return / end | join import 2
bam 1 / import 'q'/1 any -> nonvar / proc 'p'/0 -> / return / end // bam 1 / proc 'q'/1 any -> any / return / end / proc 'p'/0 -> / return / end | join name 3
bam 1 / pool 'f'(1) / proc 'p'/0 -> / move r0 #0 / return / end // bam 1 / pool 'g'(1) / pool 'f'(1) / proc 'q'/0 -> / lst r0 / push #0 / push #1 / same eq #1 #0 / return / end | bam 1 / pool 'f'(1) / pool 'g'(1) / proc 'p'/0 -> / move r0 #0 / return / end / proc 'q'/0 -> / lst r0 / push #1 / push #0 / same eq #0 #1 / return / end
bam 1 / pool 'f'(1,'g'(2)) / proc 'p'/0 -> / raise #0 / end // bam 1 / pool 'f'('g'(1),2) / pool 'f'(1,'g'(2)) / proc 'q'/0 -> / raise #1 / end | bam 1 / pool 'f'(1,'g'(2)) / pool 'f'('g'(1),2) / proc 'p'/0 -> / raise #0 / end / proc 'q'/0 -> / raise #0 / end
bam 1 / pool 'f'(1) / proc 'p'/1 any -> any / unify r0 #0 / eval r1 #0 / return / end // bam 1 / pool 'h'(1) / proc 'q'/1 out -> any / fill r0 #0 / return / end // bam 1 / pool 'h'(1) / pool 'f'(1) / proc 'r'/1 any -> any / fresh r1 / bind r1 #1 / unify r0 #0 / return / end | bam 1 / pool 'f'(1) / pool 'h'(1) / proc 'p'/1 any -> any / unify r0 #0 / eval r1 #0 / return / end / proc 'q'/1 out -> any / fill r0 #1 / return / end / proc 'r'/1 any -> any / fresh r1 / bind r1 #0 / unify r0 #1 / return / end
bam 1 / entry 'p'/0 / proc 'p'/0 -> / return / end // bam 1 / entry 'q'/1 any / proc 'q'/1 any -> any / label 0 - a0:any r0:any=a0 / return / end | bam 1 / entry 'p'/0 / entry 'q'/1 any / proc 'p'/0 -> / return / end / proc 'q'/1 any -> any / label 0 - a0:any r0:any=a0 / return / end
bam 1 / proc 'p'/0 -> / return / end // bam 2 / proc 'q'/1 any -> any / raise r0 / end | bam 2 / proc 'p'/0 -> / return / end / proc 'q'/1 any -> any / raise r0 / end
bam 2 / import 'g'/0 -> / proc 'p'/0 -> / catch 0 0 / allocate 1 / call 'g'/0 / uncatch / deallocate / return / ball 0 - / raise r0 / end // bam 1 / proc 'g'/0 -> / fail / end | bam 2 / proc 'p'/0 -> / catch 0 0 / allocate 1 / call 'g'/0 / uncatch / deallocate / return / ball 0 - / raise r0 / end / proc 'g'/0 -> / fail / end";

/// The text whose lines stand between ` / `.
fn text_of(alloc: Global, lines: &str) -> Result<String, Fail> {
    let mut text = String::new(alloc);
    for line in lines.split(" / ") {
        text.push_str(line)?;
        text.push_str("\n")?;
    }
    Ok(text)
}

/// A part, or what the line of its refusal says.
enum Part {
    Accepted(Verified),
    Refused(String),
}

fn part_of(alloc: Global, atoms: &mut Atoms, number: usize, text: &str) -> Result<Part, Fail> {
    match read(alloc, text.as_bytes(), atoms) {
        Ok(code) => part_of_code(alloc, number, code),
        Err(TextFault::Line(line)) => {
            Ok(Part::Refused(format!(in alloc; "part {number} line {line}")?))
        }
        Err(TextFault::Memory) => Err(Fail::new("out of memory")),
    }
}

fn part_of_code(alloc: Global, number: usize, code: Code) -> Result<Part, Fail> {
    match verify(alloc, code) {
        Ok(verified) => Ok(Part::Accepted(verified)),
        Err(VerifyFault::Rejected(_code, reject)) => {
            Ok(Part::Refused(rejected(alloc, number, reject)?))
        }
        Err(VerifyFault::Memory(_code)) => Err(Fail::new("out of memory")),
    }
}

fn rejected(alloc: Global, number: usize, reject: Reject) -> Result<String, Fail> {
    let word = reject.rule.word();
    let proc = reject.proc;
    let line = reject.line;
    Ok(format!(in alloc; "part {number} proc {proc} line {line}: {word}")?)
}

/// The joined text of parts, or what the line of the refusal says.
fn answer(alloc: Global, row: &str) -> Result<String, Fail> {
    let mut atoms = Atoms::new(alloc)?;
    let mut parts = VerifiedParts::new(alloc);
    for lines in row.split(" // ") {
        let text = text_of(alloc, lines)?;
        let number = parts.len().saturating_add(1);
        match part_of(alloc, &mut atoms, number, text.as_str())? {
            Part::Accepted(part) => parts.push(part)?,
            Part::Refused(line) => return Ok(line),
        }
    }
    answer_to(alloc, &parts, &atoms)
}

fn answer_to(alloc: Global, parts: &VerifiedParts, atoms: &Atoms) -> Result<String, Fail> {
    match join(alloc, parts) {
        Ok(joined) => answer_to_joined(alloc, &joined, atoms),
        Err(JoinFault::Name(number)) => Ok(format!(in alloc; "join name {number}")?),
        Err(JoinFault::Import(number)) => Ok(format!(in alloc; "join import {number}")?),
        Err(JoinFault::Memory) => Err(Fail::new("out of memory")),
    }
}

/// The text of a joined code, which is accepted.
fn answer_to_joined(alloc: Global, joined: &Verified, atoms: &Atoms) -> Result<String, Fail> {
    match first_reject(alloc, joined.code())? {
        None => Ok(String::from_utf8(print(alloc, joined.code(), atoms)?)?),
        Some(reject) => rejected(alloc, 0, reject),
    }
}

/// Whether a text has these lines, or a refusal these words.
fn is_answer(alloc: Global, given: &str, wanted: &str) -> Result<bool, Fail> {
    let text = text_of(alloc, wanted)?;
    Ok(given == wanted || given == text.as_str())
}

#[test]
fn joined_parts(rt: HostRuntime) -> Result<(), Fail> {
    for row in PARTS.lines() {
        let (parts, wanted) = row.split_once(" | ").ok_or("no answer")?;
        let given = answer(rt.alloc(), parts)?;
        let is_answer = is_answer(rt.alloc(), given.as_str(), wanted)?;
        assert!(rt; is_answer, "{row} gives {}", given.as_str());
    }
    Ok(())
}
