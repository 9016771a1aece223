ghost use Rattle.std.specs.Prelude.{◌≤◌, IfErr};
ghost use Rattle.part_link.specs.JoinCause.{IsJoinFault};

use crate::copies::{copy_entry, copy_signature};
use crate::join_fault::JoinFault;
use crate::join_names::JoinNames;
use crate::pool_union::PoolUnion;
use crate::renumbered::renumbered;
use crate::verified_parts::VerifiedParts;
use aq_term::entries::Entries;
use aq_term::memory::Memory;
use bam_code::arg_type::ArgType;
use bam_code::code::Code;
use bam_code::procedure::Proc;
use bam_code::procs::Procs;
use bam_code::result_type::ResultType;
use bam_code::signature::Signature;
use bam_code::signatures::Signatures;
use bam_types::verified::Verified;
use std::alloc::Global;

/// Joins parts into one code: the parts' entries in order, their imports that no part has as a procedure, each once at its first place,
/// their pool entries, each once at its first place, and their procedures in order. The code keeps all rules, since each part does and
/// the names that it imports have the signatures that it takes them to have.
pub fn join(alloc: Global, parts: &VerifiedParts) -> Result<Verified, JoinFault>
    ensures { IfErr result IsJoinFault }
{
    let parts = parts.as_slice();
    let mut names = JoinNames::new(alloc);
    name_all(&mut names, parts)?;
    let imports = agreed(alloc, &mut names, parts)?;
    let entries = joined_entries(alloc, parts)?;
    let mut pool = PoolUnion::new(alloc);
    let mut procs = Procs::new(alloc);
    for part in parts {
        join_part(alloc, part.code(), &mut pool, &mut procs)?;
    }
    Ok(Verified::new(Code {
        entries,
        imports,
        pool: pool.into_pool(),
        procs,
    }))
}

/// Takes up the names of all procedures, which differ.
fn name_all(names: &mut JoinNames, parts: &[Verified]) -> Result<(), JoinFault>
    ensures { IfErr result IsJoinFault }
{
    let mut before: u64 = 0;
    for (number, part) in parts.iter().enumerate() {
        let procs = part.code().procs.as_slice();
        if let Some(clash) = names.add_procs(number, procs)? {
            return Err(JoinFault::Name(counted(before, clash)));
        }
        before = before.saturating_add(procs.len() as u64);
    }
    Ok(())
}

/// The number from 1 of what has the number from 0 behind so many others.
fn counted(before: u64, number: usize) -> u64
    ensures { 1 ≤ result }
{
    before.saturating_add(number as u64).saturating_add(1)
}

/// The imports that no part has as a procedure, each once. All of one name have one signature.
fn agreed(alloc: Global, names: &mut JoinNames, parts: &[Verified]) -> Result<Signatures, JoinFault>
    ensures { IfErr result IsJoinFault }
{
    let mut imports = Signatures::new(alloc);
    let mut before: u64 = 0;
    for (number, part) in parts.iter().enumerate() {
        let given = part.code().imports.as_slice();
        if let Some(clash) = agree(alloc, names, parts, number, given, &mut imports)? {
            return Err(JoinFault::Import(counted(before, clash)));
        }
        before = before.saturating_add(given.len() as u64);
    }
    Ok(imports)
}

/// Takes up the imports of a part, and gives the number, from 0, of the first that does not agree.
fn agree(
    alloc: Global,
    names: &mut JoinNames,
    parts: &[Verified],
    part: usize,
    given: &[Signature],
    imports: &mut Signatures,
) -> Result<Option<usize>, Memory> {
    for (number, import) in given.iter().enumerate() {
        if let Some(wanted) = names.wanted(parts, &import.name) {
            if !has_one_form(import, wanted) {
                return Ok(Some(number));
            }
        }
        if names.add_import(part, number, &import.name)? {
            imports.push(copy_signature(alloc, import)?)?;
        }
    }
    Ok(None)
}

/// Whether two signatures have the same arguments and the same results.
fn has_one_form(left: &Signature, right: &Signature) -> bool {
    same_args(left.args.as_slice(), right.args.as_slice())
        && same_results(left.results.as_slice(), right.results.as_slice())
}

fn same_args(left: &[ArgType], right: &[ArgType]) -> bool {
    left == right
}

fn same_results(left: &[ResultType], right: &[ResultType]) -> bool {
    left == right
}

fn joined_entries(alloc: Global, parts: &[Verified]) -> Result<Entries, Memory> {
    let mut entries = Entries::new(alloc);
    for part in parts {
        add_entries(alloc, part.code(), &mut entries)?;
    }
    Ok(entries)
}

fn add_entries(alloc: Global, code: &Code, entries: &mut Entries) -> Result<(), Memory> {
    for entry in code.entries.as_slice() {
        entries.push(copy_entry(alloc, entry)?)?;
    }
    Ok(())
}

/// Adds a part's pool entries and procedures.
fn join_part(
    alloc: Global,
    code: &Code,
    pool: &mut PoolUnion,
    procs: &mut Procs,
) -> Result<(), Memory> {
    let numbers = pool.add_all(code.pool.as_slice())?;
    for proc in code.procs.as_slice() {
        procs.push(Proc {
            signature: copy_signature(alloc, &proc.signature)?,
            lines: renumbered(alloc, proc.lines.as_slice(), numbers.as_slice())?,
        })?;
    }
    Ok(())
}
