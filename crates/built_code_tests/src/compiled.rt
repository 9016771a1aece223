use aq_term::atoms::Atoms;
use aq_term::entries::Entries;
use aq_term::proc_name::ProcName;
use aq_term::read_terms::ReadTerms;
use bam_code::code::Code;
use bam_peephole::clean::clean;
use bam_text::print::print;
use bam_verify::verify::verify;
use bam_verify::verify_fault::VerifyFault;
use determinism::plan;
use flow_analysis::analyse;
use flow_equations::facts::Facts;
use goal_code::goal_code;
use kernel_form::to_kernel;
use kernel_ir::kernel::Kernel;
use kernel_ir::kernel_predicate::KernelPredicate;
use move_coalescing::coalesce::coalesce;
use prolog_reader::read::read_clause;
use prolog_tokens::scan::next_clause;
use reg_alloc::allocate::allocate;
use source_program::fault::GatherFault;
use source_program::gather;
use source_program::program::Program;
use std::alloc::Global;
use std::test::Fail;
use uninit_args::results;

/// The most bytes of a program.
const MANY: usize = 1_000_000;

/// A program in kernel form, its facts, and the code that the compiler makes of it.
#[derive(Drop)]
pub struct Compiled {
    pub entries: Entries,
    pub kernel: Kernel,
    pub facts: Facts,
    pub code: Code,
    /// What the verifier says of the code, where it rejects it.
    pub rejected: Option<String>,
    atoms: Atoms,
}

impl Compiled {
    /// The predicate of a name.
    pub fn predicate(&self, name: ProcName) -> Option<&KernelPredicate> {
        for predicate in self.kernel.predicates.as_slice() {
            if predicate.name == name {
                return Some(predicate);
            }
        }
        None
    }

    /// The text of the code.
    pub fn text(&self, alloc: Global) -> Result<String, Fail> {
        Ok(String::from_utf8(print(alloc, &self.code, &self.atoms)?)?)
    }
}

/// Compiles the text of a program, which is accepted.
pub fn compile(alloc: Global, text: &str) -> Result<Compiled, Fail> {
    let mut atoms = Atoms::new(alloc)?;
    let program = gathered(alloc, text, &mut atoms)?;
    let kernel = to_kernel(alloc, &program)?;
    let facts = analyse(alloc, &kernel, &program.entries)?;
    let plans = plan(alloc, &kernel, &facts)?;
    let outs = results(alloc, &kernel, &facts)?;
    let code = goal_code(alloc, &kernel, &facts, &plans, &outs, &program.entries)?;
    let coalesced = coalesce(alloc, clean(alloc, code)?)?;
    let (code, rejected) = verified(alloc, allocate(alloc, coalesced)?)?;
    let Program { entries, .. } = program;
    Ok(Compiled {
        entries,
        kernel,
        facts,
        code,
        rejected,
        atoms,
    })
}

/// The code, and what the verifier says of it, where it rejects it.
fn verified(alloc: Global, code: Code) -> Result<(Code, Option<String>), Fail> {
    match verify(alloc, code) {
        Ok(verified) => Ok((verified.into_code(), None)),
        Err(VerifyFault::Rejected(code, reject)) => {
            let word = reject.rule.word();
            let text = format!(in alloc; "proc {} line {}: {word}", reject.proc, reject.line)?;
            Ok((code, Some(text)))
        }
        Err(VerifyFault::Memory(_code)) => Err(Fail::new("out of memory")),
    }
}

fn gathered(alloc: Global, text: &str, atoms: &mut Atoms) -> Result<Program, Fail> {
    let terms = read(alloc, text.as_bytes(), atoms)?;
    match gather(alloc, &terms, atoms) {
        Ok(program) => Ok(program),
        Err(GatherFault::Memory) => Err(Fail::new("out of memory")),
        Err(GatherFault::Refused(_)) => Err(Fail::new("refused")),
    }
}

fn read(alloc: Global, text: &[u8], atoms: &mut Atoms) -> Result<ReadTerms, Fail> {
    let mut terms = ReadTerms::new(alloc);
    let mut at = 0;
    for _ in 0..MANY {
        if at > text.len() || text.len() > MANY || atoms.len() > MANY {
            return Err("too long".into());
        }
        let Some(clause) = next_clause(alloc, text, at)? else {
            return Ok(terms);
        };
        at = clause.end;
        terms.push(read_clause(alloc, &clause.tokens, atoms)?)?;
    }
    Err("too many clauses".into())
}
