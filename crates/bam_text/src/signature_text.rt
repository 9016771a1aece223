ghost use Rattle.std.specs.Prelude.{◌<◌, ◌≤◌, OnOk, length};

use crate::fault::LineFault;
use crate::fields::Fields;
use crate::items_text::is_term;
use crate::names::name;
use crate::words::{arg_type_of, mode_of, result_type_of};
use aq_term::atoms::Atoms;
use aq_term::entry::Entry;
use aq_term::modes::Modes;
use bam_code::arg_type::ArgType;
use bam_code::arg_types::ArgTypes;
use bam_code::result_type::ResultType;
use bam_code::signature::Signature;
use bam_code::types::Types;
use std::alloc::Global;

/// Reads the name and the modes of an entry, up to the end of the line.
pub fn entry(
    alloc: Global,
    fields: &mut Fields<'_>,
    atoms: &mut Atoms,
) -> Result<Entry, LineFault> {
    fields.space()?;
    let name = name(alloc, fields, atoms)?;
    if name.part != 0 {
        return Err(LineFault::Form);
    }
    let mut modes = Modes::new(alloc);
    for _ in 0..name.arity {
        fields.space()?;
        modes.push(mode_of(fields.word()).ok_or(LineFault::Form)?)?;
    }
    fields.end()?;
    Ok(Entry {
        name: name.name,
        arity: name.arity,
        modes,
        clause: 0,
    })
}

/// Reads the signature of an import or a procedure, up to the end of the line.
pub fn signature(
    alloc: Global,
    fields: &mut Fields<'_>,
    atoms: &mut Atoms,
) -> Result<Signature, LineFault> {
    fields.space()?;
    let name = name(alloc, fields, atoms)?;
    let args = args(alloc, fields, name.width)?;
    fields.space()?;
    fields.byte(b'-')?;
    fields.byte(b'>')?;
    let results = results(alloc, fields, args.as_slice())?;
    fields.end()?;
    Ok(Signature {
        name,
        args,
        results,
    })
}

fn args(alloc: Global, fields: &mut Fields<'_>, width: u8) -> Result<ArgTypes, LineFault> {
    let mut args = ArgTypes::new(alloc);
    for _ in 0..width {
        fields.space()?;
        args.push(arg_type_of(fields.word()).ok_or(LineFault::Form)?)?;
    }
    Ok(args)
}

fn results(alloc: Global, fields: &mut Fields<'_>, args: &[ArgType]) -> Result<Types, LineFault> {
    let mut results = Types::new(alloc);
    for arg in args {
        fields.space()?;
        let result_type = result_type_of(fields.word()).ok_or(LineFault::Form)?;
        if !is_result_of(*arg, result_type) {
            return Err(LineFault::Form);
        }
        results.push(result_type)?;
    }
    Ok(results)
}

/// Whether an argument of this type may have such a result.
fn is_result_of(arg: ArgType, result_type: ResultType) -> bool {
    match arg {
        ArgType::Out => result_type != ResultType::Bar,
        ArgType::Bar => result_type == ResultType::Bar,
        _ => matches!(
            result_type,
            ResultType::Ground | ResultType::Nonvar | ResultType::Any
        ),
    }
}
