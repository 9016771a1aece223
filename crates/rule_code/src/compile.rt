ghost use Rattle.std.specs.Prelude.{◌≡◌, ◌∷◌, [], IfOk, IfErr, OnOk};
ghost use Rattle.bam_meaning.specs.Linked.{IsPlainCode};
ghost use Rattle.source_meaning.specs.Closed.{Closed};
ghost use Rattle.source_meaning.specs.RuleProgram.{program_of};
ghost use Rattle.rule_code.specs.Compiled.{IsCompiled, entry_of};
ghost use Rattle.rule_code.specs.Passes.{table_with};
ghost use Rattle.rule_code.specs.declared.compile_fault.CompileFault.{CompileFault};

use crate::compile_fault::CompileFault;
use crate::defined::is_closed;
use crate::emit::procs_of;
use crate::group::group;
use crate::number::{number, number_rules};
use crate::reach::reach;
use aq_term::atoms::Atoms;
use aq_term::entries::Entries;
use aq_term::entry::Entry;
use aq_term::memory::Memory;
use aq_term::modes::Modes;
use aq_term::pool::Pool;
use aq_term::proc_name::ProcName;
use bam_code::code::Code;
use bam_code::signatures::Signatures;
use source_meaning::rule_program::RuleProgram;
use std::alloc::Global;

/// The code of a program whose goals are names, with one procedure for each name that the entry reaches. All names of the
/// program are put into the table. `Undefined` comes exactly where the entry's name, or a name that any clause calls, has
/// no clause.
pub fn compile(
    alloc: Global,
    program: &RuleProgram<'_>,
    atoms: &mut Atoms,
) -> Result<Code, CompileFault>
    ensures compiled { IfOk result (λ code. IsCompiled atoms.new (program_of program.now) code) }
    ensures table { OnOk result (atoms.new ≡ table_with atoms.old (program_of program.now)) }
    ensures plain { IfOk result IsPlainCode }
    ensures undefined { IfErr result (λ fault. fault ≡ CompileFault.Undefined → Closed (program_of program.now) → ⊥) }
{
    let entry = number(atoms, program.entry)?;
    let rules = number_rules(alloc, program.clauses.as_slice(), atoms)?;
    let grouped = group(alloc, rules, atoms.len())?;
    let rows = grouped.rows.as_slice();
    if !is_closed(rows, &entry) {
        return Err(CompileFault::Undefined);
    }
    let reached = reach(alloc, rows, &entry)?;
    let procs = procs_of(alloc, grouped.order.as_slice(), rows, reached.as_slice())?;
    Ok(Code {
        entries: entries_of(alloc, &entry)?,
        imports: Signatures::new(alloc),
        pool: Pool::new(alloc),
        procs,
    })
}

/// The declaration of the entry alone.
fn entries_of(alloc: Global, name: &ProcName) -> Result<Entries, Memory>
    ensures { IfOk result (λ entries. entries ≡ entry_of name.now ∷ []) }
{
    let mut entries = Entries::new(alloc);
    entries.push(Entry {
        name: name.name,
        arity: 0,
        modes: Modes::new(alloc),
        clause: 0,
    })?;
    Ok(entries)
}
