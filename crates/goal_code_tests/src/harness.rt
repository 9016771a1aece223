use aq_term::atoms::Atoms;
use aq_term::read_terms::ReadTerms;
use bam_code::code::Code;
use bam_text::print::print;
use bam_verify::verify::verify;
use bam_verify::verify_fault::VerifyFault;
use determinism::plan;
use flow_analysis::analyse;
use goal_code::goal_code;
use kernel_form::to_kernel;
use prolog_reader::read::read_clause;
use prolog_tokens::scan::next_clause;
use source_program::fault::GatherFault;
use source_program::gather;
use source_program::program::Program;
use std::alloc::Global;
use std::process::Abort;
use std::test::Fail;
use uninit_args::results;

/// The most bytes of a program.
const MANY: usize = 1_000_000;

fn read(alloc: Global, text: &[u8], atoms: &mut Atoms) -> Result<ReadTerms, Fail> {
    let mut terms = ReadTerms::new(alloc);
    let mut at = 0;
    for _ in 0..MANY {
        if at > text.len() || text.len() > MANY || atoms.len() > MANY {
            return Err("too long".into());
        }
        let Some(clause) = next_clause(alloc, text, at)? else {
            return Ok(terms);
        };
        at = clause.end;
        terms.push(read_clause(alloc, &clause.tokens, atoms)?)?;
    }
    Err("too many clauses".into())
}

fn gathered(alloc: Global, text: &str, atoms: &mut Atoms) -> Result<Program, Fail> {
    let terms = read(alloc, text.as_bytes(), atoms)?;
    match gather(alloc, &terms, atoms) {
        Ok(program) => Ok(program),
        Err(GatherFault::Memory) => Err(Fail::new("out of memory")),
        Err(GatherFault::Refused(_)) => Err(Fail::new("refused")),
    }
}

/// The code of a program.
pub fn code_of(alloc: Global, text: &str, atoms: &mut Atoms) -> Result<Code, Fail> {
    let program = gathered(alloc, text, atoms)?;
    let kernel = to_kernel(alloc, &program)?;
    let facts = analyse(alloc, &kernel, &program.entries)?;
    let plans = plan(alloc, &kernel, &facts)?;
    let outs = results(alloc, &kernel, &facts)?;
    Ok(goal_code(alloc, &kernel, &facts, &plans, &outs, &program.entries)?)
}

/// The text of a program's code.
pub fn text_of_code(alloc: Global, program: &str) -> Result<String, Fail> {
    let mut atoms = Atoms::new(alloc)?;
    let code = code_of(alloc, program, &mut atoms)?;
    Ok(String::from_utf8(print(alloc, &code, &atoms)?)?)
}

/// `accepted`, or the first line of the code that is rejected and the text of the code.
pub fn answer(alloc: Global, program: &str) -> Result<String, Fail> {
    let mut atoms = Atoms::new(alloc)?;
    let code = code_of(alloc, program, &mut atoms)?;
    match verify(alloc, code) {
        Ok(_verified) => Ok(String::from_str(alloc, "accepted")?),
        Err(VerifyFault::Rejected(code, reject)) => {
            let word = reject.rule.word();
            let proc = reject.proc;
            let line = reject.line;
            let text = String::from_utf8(print(alloc, &code, &atoms)?)?;
            Ok(format!(in alloc; "proc {proc} line {line}: {word}\n{text}")?)
        }
        Err(VerifyFault::Memory(_code)) => Err(Fail::new("out of memory")),
    }
}

/// The code of each program, which stands in a line, is accepted.
pub fn assert_accepted(rt: &impl Abort, alloc: Global, programs: &str) -> Result<(), Fail> {
    for program in programs.lines() {
        let given = answer(alloc, program)?;
        assert_eq!(rt; given.as_str(), "accepted", "{program}");
    }
    Ok(())
}
