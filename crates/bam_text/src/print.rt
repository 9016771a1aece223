ghost use Rattle.std.specs.Prelude.{◌≡◌, ◌++◌, OnOk, IfOk, map};
ghost use Rattle.aq_term.specs.PlainOf.{plain};
ghost use Rattle.bam_text.specs.CodeText as spelled;

use crate::output::Output;
use crate::version::catches;
use crate::words::{arg_type_word, mode_word, result_type_word};
use crate::{print_line, print_operands as operand};
use aq_term::atoms::Atoms;
use aq_term::entry::Entry;
use aq_term::memory::Memory;
use aq_term::mode::Mode;
use aq_term::term::Term;
use bam_code::arg_type::ArgType;
use bam_code::code::Code;
use bam_code::line::Line;
use bam_code::procedure::Proc;
use bam_code::result_type::ResultType;
use bam_code::signature::Signature;
use std::alloc::Global;

/// The text of a code. Its atoms are in the table; one that is not is spelled as the empty one.
pub fn print(alloc: Global, code: &Code, atoms: &Atoms) -> Result<Vec<u8>, Memory>
    ensures { IfOk result (λ text. text.items ≡ spelled.code_text atoms.now code.now) }
{
    let mut output = Output::new(alloc);
    first_line(&mut output, code.procs.as_slice())?;
    entries(&mut output, atoms, code.entries.as_slice())?;
    imports(&mut output, atoms, code.imports.as_slice())?;
    pool(&mut output, atoms, code.pool.as_slice())?;
    procs(&mut output, atoms, code.procs.as_slice())?;
    Ok(output.into_bytes())
}

fn first_line(output: &mut Output, procs: &[Proc]) -> Result<(), Memory>
    ensures { OnOk result (output.new ≡ output.old ++ spelled.first_line procs.now) }
{
    output.text(if some_proc_catches(procs) {
        "bam 2\n"
    } else {
        "bam 1\n"
    })
}

fn some_proc_catches(procs: &[Proc]) -> bool
    ensures { result ≡ spelled.some_proc_catches procs.now }
{
    for proc in procs {
        if some_catches(proc.lines.as_slice()) {
            return true;
        }
    }
    false
}

fn some_catches(lines: &[Line]) -> bool
    ensures { result ≡ spelled.some_catches lines.now }
{
    for line in lines {
        if catches(line) {
            return true;
        }
    }
    false
}

fn entries(output: &mut Output, atoms: &Atoms, entries: &[Entry]) -> Result<(), Memory>
    ensures { OnOk result (output.new ≡ output.old ++ spelled.section_text (spelled.entry_text atoms.now) entries.now) }
{
    for one in entries {
        entry(output, atoms, one)?;
    }
    Ok(())
}

fn entry(output: &mut Output, atoms: &Atoms, entry: &Entry) -> Result<(), Memory>
    ensures { OnOk result (output.new ≡ output.old ++ spelled.entry_text atoms.now entry.now) }
{
    output.text("entry ")?;
    output.atom(atoms, entry.name)?;
    output.byte(b'/')?;
    output.number(u64::from(entry.arity))?;
    modes(output, entry.modes.as_slice())?;
    output.byte(b'\n')
}

fn modes(output: &mut Output, modes: &[Mode]) -> Result<(), Memory>
    ensures { OnOk result (output.new ≡ output.old ++ spelled.modes_text modes.now) }
{
    for mode in modes {
        output.field(mode_word(*mode))?;
    }
    Ok(())
}

fn imports(output: &mut Output, atoms: &Atoms, imports: &[Signature]) -> Result<(), Memory>
    ensures { OnOk result (output.new ≡ output.old ++ spelled.section_text (spelled.import_text atoms.now) imports.now) }
{
    for one in imports {
        output.text("import ")?;
        signature(output, atoms, one)?;
    }
    Ok(())
}

fn signature(output: &mut Output, atoms: &Atoms, signature: &Signature) -> Result<(), Memory>
    ensures { OnOk result (output.new ≡ output.old ++ spelled.signature_text atoms.now signature.now) }
{
    operand::name(output, atoms, signature.name)?;
    args(output, signature.args.as_slice())?;
    output.text(" ->")?;
    results(output, signature.results.as_slice())?;
    output.byte(b'\n')
}

fn args(output: &mut Output, args: &[ArgType]) -> Result<(), Memory>
    ensures { OnOk result (output.new ≡ output.old ++ spelled.args_text args.now) }
{
    for arg in args {
        output.field(arg_type_word(*arg))?;
    }
    Ok(())
}

fn results(output: &mut Output, results: &[ResultType]) -> Result<(), Memory>
    ensures { OnOk result (output.new ≡ output.old ++ spelled.results_text results.now) }
{
    for one in results {
        output.field(result_type_word(*one))?;
    }
    Ok(())
}

fn pool(output: &mut Output, atoms: &Atoms, pool: &[Term]) -> Result<(), Memory>
    ensures { OnOk result (output.new ≡ output.old ++ spelled.section_text (spelled.pool_text atoms.now) (map plain pool.now)) }
{
    for term in pool {
        output.text("pool ")?;
        operand::ground(output, atoms, term)?;
        output.byte(b'\n')?;
    }
    Ok(())
}

fn procs(output: &mut Output, atoms: &Atoms, procs: &[Proc]) -> Result<(), Memory>
    ensures { OnOk result (output.new ≡ output.old ++ spelled.section_text (spelled.proc_text atoms.now) procs.now) }
{
    for one in procs {
        procedure(output, atoms, one)?;
    }
    Ok(())
}

fn procedure(output: &mut Output, atoms: &Atoms, proc: &Proc) -> Result<(), Memory>
    ensures { OnOk result (output.new ≡ output.old ++ spelled.proc_text atoms.now proc.now) }
{
    output.text("proc ")?;
    signature(output, atoms, &proc.signature)?;
    lines(output, atoms, proc.lines.as_slice())?;
    output.text("end\n")
}

fn lines(output: &mut Output, atoms: &Atoms, lines: &[Line]) -> Result<(), Memory>
    ensures { OnOk result (output.new ≡ output.old ++ spelled.lines_text atoms.now lines.now) }
{
    for line in lines {
        print_line::line(output, atoms, line)?;
        output.byte(b'\n')?;
    }
    Ok(())
}
