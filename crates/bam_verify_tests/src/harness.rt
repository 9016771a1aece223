use aq_term::atoms::Atoms;
use aq_term::memory::Memory;
use bam_code::code::Code;
use bam_text::fault::TextFault;
use bam_text::print::print;
use bam_text::read::read;
use bam_verify::reject::Reject;
use bam_verify::verify::verify;
use bam_verify::verify_fault::VerifyFault;
use std::alloc::Global;
use std::process::Abort;
use std::test::Fail;

/// What each text of a table may call, and its pool.
pub const NAMES: &str = "\
import 'plain'/0 ->
import 'any'/1 any -> any
import 'learns'/1 any -> ground
import 'tests'/1 any -> nonvar
import 'direct'/1 direct -> nonvar
import 'full'/1 full -> ground
import 'makes'/1 out -> any
import 'makes_full'/1 out -> full
import 'makes_direct'/1 out -> direct
import 'makes_two'/2 out out -> any any
import 'cuts'/1 bar -> bar
import 'takes'/2 any out -> ground any
pool 'f'(1)
pool '.'(1,'[]')
";

/// `accepted`, or what the line of the refusal says. An accepted text is one that is printed as it was read.
pub fn answer(alloc: Global, text: &str) -> Result<String, Fail> {
    let mut atoms = Atoms::new(alloc)?;
    match read(alloc, text.as_bytes(), &mut atoms) {
        Ok(code) => answer_to(alloc, text, code, &atoms),
        Err(TextFault::Line(line)) => Ok(format!(in alloc; "line {line}")?),
        Err(TextFault::Memory) => Err(Fail::new("out of memory")),
    }
}

fn answer_to(alloc: Global, text: &str, code: Code, atoms: &Atoms) -> Result<String, Fail> {
    match verify(alloc, code) {
        Ok(verified) => {
            let printed = print(alloc, verified.code(), atoms)?;
            if printed.as_slice() == text.as_bytes() {
                Ok(String::from_str(alloc, "accepted")?)
            } else {
                Ok(String::from_str(alloc, "printed in another way")?)
            }
        }
        Err(VerifyFault::Rejected(_code, reject)) => Ok(rejected(alloc, reject)?),
        Err(VerifyFault::Memory(_code)) => Err(Fail::new("out of memory")),
    }
}

fn rejected(alloc: Global, reject: Reject) -> Result<String, Fail> {
    let word = reject.rule.word();
    let proc = reject.proc;
    let line = reject.line;
    if proc == 1 {
        Ok(format!(in alloc; "{line} {word}")?)
    } else {
        Ok(format!(in alloc; "proc {proc} line {line}: {word}")?)
    }
}

/// The text of one procedure behind the names, of which the lines stand between ` / `.
pub fn text_of(
    alloc: Global,
    version: &str,
    signature: &str,
    lines: &str,
) -> Result<String, Memory> {
    let mut text = format!(in alloc; "bam {version}\n{NAMES}proc {signature}\n")?;
    for line in lines.split(" / ") {
        text.push_str(line)?;
        text.push_str("\n")?;
    }
    text.push_str("end\n")?;
    Ok(text)
}

/// The answers to a table: in each row the lines of one procedure with this signature, and then `accepted`, or the number of the line
/// that is rejected and the rule.
pub fn answers(
    rt: &impl Abort,
    alloc: Global,
    version: &str,
    signature: &str,
    table: &str,
) -> Result<(), Fail> {
    for row in table.lines() {
        let (lines, wanted) = row.split_once(" | ").ok_or("no answer")?;
        let text = text_of(alloc, version, signature, lines)?;
        let given = answer(alloc, text.as_str())?;
        assert_eq!(rt; given.as_str(), wanted, "{row}");
    }
    Ok(())
}

/// The answers to whole texts, whose lines stand between ` / `.
pub fn whole_answers(rt: &impl Abort, alloc: Global, table: &str) -> Result<(), Fail> {
    for row in table.lines() {
        let (lines, wanted) = row.split_once(" | ").ok_or("no answer")?;
        let mut text = String::new(alloc);
        for line in lines.split(" / ") {
            text.push_str(line)?;
            text.push_str("\n")?;
        }
        let given = answer(alloc, text.as_str())?;
        assert_eq!(rt; given.as_str(), wanted, "{row}");
    }
    Ok(())
}
