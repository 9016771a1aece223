ghost use Rattle.std.specs.Prelude.{◌≡◌, slice_get};
ghost use Rattle.bam_types.specs.Callees.{procedure_in};
ghost use Rattle.bam_types.specs.EntryRule.{keeps_entry, takes_all, takes_from, takes_at, takes};

use crate::callees::Callees;
use aq_term::entry::Entry;
use aq_term::mode::Mode;
use aq_term::proc_name::ProcName;
use bam_code::arg_type::ArgType;
use bam_code::code::Code;

/// The rule of entries: an entry's procedure is there, and takes what queries load for the entry's modes.
pub fn keeps_entry(callees: &Callees, code: &Code, entry: &Entry) -> bool
    ensures { result ≡ keeps_entry (procedure_in callees.now code.now) entry.now }
{
    let name = ProcName {
        name: entry.name,
        arity: entry.arity,
        part: 0,
        width: entry.arity,
    };
    match callees.procedure(code, &name) {
        Some(signature) => takes_all(entry.modes.as_slice(), signature.args.as_slice()),
        None => false,
    }
}

fn takes_all(modes: &[Mode], args: &[ArgType]) -> bool
    ensures { result ≡ takes_all modes.now args.now }
{
    modes.len() == args.len() && takes_in_order(modes, args)
}

fn takes_in_order(modes: &[Mode], args: &[ArgType]) -> bool
    ensures { result ≡ takes_from args.now 0 modes.now }
{
    for (number, mode) in modes.iter().enumerate() {
        if !takes_at(args, number, *mode) {
            return false;
        }
    }
    true
}

fn takes_at(args: &[ArgType], number: usize, mode: Mode) -> bool
    ensures { result ≡ takes_at (slice_get args.now number) mode }
{
    match args.get(number) {
        Some(declared) => takes(*declared, mode),
        None => false,
    }
}

/// Whether an argument of this declared type takes what a query loads for a mode: a full word for `ground`, one that is no
/// reference for `nonvar`, any for `any`, and for `out` a hole or any.
fn takes(declared: ArgType, mode: Mode) -> bool
    ensures { result ≡ takes declared mode }
{
    match mode {
        Mode::Ground => !matches!(declared, ArgType::Out | ArgType::Bar),
        Mode::Nonvar => matches!(declared, ArgType::Direct | ArgType::Nonvar | ArgType::Any),
        Mode::Out => matches!(declared, ArgType::Out | ArgType::Any),
        Mode::Any => matches!(declared, ArgType::Any),
    }
}
