use aq_term::atoms::Atoms;
use aq_term::read_terms::ReadTerms;
use kernel_form::to_kernel;
use kernel_ir::kernel::Kernel;
use kernel_ir::kernel_text::kernel_text;
use prolog_reader::read::read_clause;
use prolog_tokens::clause::Clause;
use prolog_tokens::scan::next_clause;
use source_program::gather;
use source_program::program::Program;
use std::alloc::Global;
use std::process::Abort;
use std::test::Fail;

/// The most bytes of a program of the tests, and the most names of its table.
const MOST: usize = 1_000_000;

/// A program that is read from its text, with its names.
#[derive(Drop)]
pub struct ReadProgram {
    pub atoms: Atoms,
    pub program: Program,
}

/// Reads a program.
pub fn program_of(rt: &impl Abort, alloc: Global, text: &str) -> Result<ReadProgram, Fail> {
    let mut atoms = Atoms::new(alloc)?;
    let mut clauses = ReadTerms::new(alloc);
    let bytes = text.as_bytes();
    let mut at = 0;
    for _ in 0..MOST {
        assert!(rt; bytes.len() < MOST && at <= bytes.len() && atoms.len() < MOST);
        let found = next_clause(alloc, bytes, at).map_err(|_| "a token")?;
        let Some(Clause { tokens, end }) = found else {
            break;
        };
        clauses.push(read_clause(alloc, &tokens, &mut atoms).map_err(|_| "no reading")?)?;
        at = end;
    }
    let program = gather(alloc, &clauses, &atoms).map_err(|_| "refused")?;
    Ok(ReadProgram { atoms, program })
}

/// The kernel form of a program, printed.
pub fn kernel_of(rt: &impl Abort, alloc: Global, text: &str) -> Result<String, Fail> {
    let ReadProgram { atoms, program } = program_of(rt, alloc, text)?;
    let kernel: Kernel = to_kernel(alloc, &program)?;
    Ok(String::from_utf8(kernel_text(alloc, &kernel, &atoms)?)?)
}
