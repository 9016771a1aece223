use crate::proc_places::{Key, key};
use aq_term::entries::Entries;
use aq_term::entry::Entry;
use aq_term::memory::Memory;
use aq_term::modes::Modes;
use aq_term::proc_name::ProcName;
use bam_code::arg_types::ArgTypes;
use bam_code::code::Code;
use bam_code::procedure::Proc;
use std::alloc::Global;
use std::collections::HashMap;

/// What a code declares of its entries, in their order: the entries themselves, and what their procedures are told of
/// their arguments.
#[derive(Debug, Drop)]
pub struct DeclaredEntries {
    pub entries: Entries,
    pub args: Vec<ArgTypes>,
}

/// What a code declares of its entries. An entry without a procedure has no argument types.
pub fn declared_entries(alloc: Global, code: &Code) -> Result<DeclaredEntries, Memory> {
    let procs = code.procs.as_slice();
    let numbers = proc_numbers(alloc, procs)?;
    let mut entries = Entries::new(alloc);
    let mut args = Vec::new(alloc);
    for entry in code.entries.as_slice() {
        args.push(entry_args(alloc, procs, &numbers, entry)?)?;
        entries.push(copy_entry(alloc, entry)?)?;
    }
    Ok(DeclaredEntries { entries, args })
}

/// The number of each name's procedure, from 0.
fn proc_numbers(alloc: Global, procs: &[Proc]) -> Result<HashMap<Key, usize>, Memory> {
    let mut numbers = HashMap::new(alloc);
    for (number, proc) in procs.iter().enumerate() {
        numbers.insert(key(&proc.signature.name), number)?;
    }
    Ok(numbers)
}

fn copy_entry(alloc: Global, entry: &Entry) -> Result<Entry, Memory> {
    let mut modes = Modes::new(alloc);
    for mode in entry.modes.as_slice() {
        modes.push(*mode)?;
    }
    Ok(Entry {
        name: entry.name,
        arity: entry.arity,
        modes,
        clause: entry.clause,
    })
}

/// The argument types of an entry's procedure.
fn entry_args(
    alloc: Global,
    procs: &[Proc],
    numbers: &HashMap<Key, usize>,
    entry: &Entry,
) -> Result<ArgTypes, Memory> {
    let name = ProcName {
        name: entry.name,
        arity: entry.arity,
        part: 0,
        width: entry.arity,
    };
    let mut args = ArgTypes::new(alloc);
    let Some(number) = numbers.get(&key(&name)) else {
        return Ok(args);
    };
    let Some(proc) = procs.get(*number) else {
        return Ok(args);
    };
    for arg in proc.signature.args.as_slice() {
        args.push(*arg)?;
    }
    Ok(args)
}
