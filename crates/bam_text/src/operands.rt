ghost use Rattle.std.specs.Prelude.{◌<◌, ◌≤◌, OnOk, IfOk, length};

use crate::fault::LineFault;
use crate::fields::Fields;
use crate::{names, words};
use aq_term::atoms::Atoms;
use aq_term::builtin::Builtin;
use bam_code::constant::Constant;
use bam_code::place::Place;
use bam_code::source::Source;
use bam_code::switch_target::SwitchTarget;
use bam_code::target::Target;
use std::alloc::Global;

/// The greatest number of a register.
const LAST_REGISTER: u64 = 1023;

/// The most slots of a frame.
const MOST_SLOTS: u64 = 256;

/// Reads a register, and gives its number.
pub fn register(fields: &mut Fields<'_>) -> Result<u16, LineFault>
    ensures shorter { OnOk result (length fields.new < length fields.old) }
    ensures within { length fields.new ≤ length fields.old }
{
    fields.byte(b'r')?;
    Ok(fields.number(LAST_REGISTER)? as u16)
}

/// Reads a slot, and gives its number.
pub fn slot(fields: &mut Fields<'_>) -> Result<u8, LineFault>
    ensures shorter { OnOk result (length fields.new < length fields.old) }
    ensures within { length fields.new ≤ length fields.old }
{
    fields.byte(b'y')?;
    Ok(fields.number(255)? as u8)
}

/// Reads a register or a slot.
pub fn place(fields: &mut Fields<'_>) -> Result<Place, LineFault>
    ensures shorter { OnOk result (length fields.new < length fields.old) }
    ensures within { length fields.new ≤ length fields.old }
{
    match fields.peek() {
        Some(b'y') => Ok(Place::Slot(slot(fields)?)),
        _ => Ok(Place::Register(register(fields)?)),
    }
}

/// Reads an integer or an atom.
pub fn constant(
    alloc: Global,
    fields: &mut Fields<'_>,
    atoms: &mut Atoms,
) -> Result<Constant, LineFault>
    ensures shorter { OnOk result (length fields.new < length fields.old) }
    ensures within { length fields.new ≤ length fields.old }
{
    match fields.peek() {
        Some(b'\'') => Ok(Constant::Atom(names::atom(alloc, fields, atoms)?)),
        _ => Ok(Constant::Int(fields.integer()?)),
    }
}

/// Reads what a word is taken from, where the pool has so many entries.
pub fn source(
    alloc: Global,
    fields: &mut Fields<'_>,
    atoms: &mut Atoms,
    pool: usize,
) -> Result<Source, LineFault> {
    match fields.peek() {
        Some(b'r') => Ok(Source::Register(register(fields)?)),
        Some(b'y') => Ok(Source::Slot(slot(fields)?)),
        Some(b'#') => Ok(Source::Pool(pool_entry(fields, pool)?)),
        Some(b'\'') => Ok(Source::Atom(names::atom(alloc, fields, atoms)?)),
        _ => Ok(Source::Int(fields.integer()?)),
    }
}

/// Reads the number of a pool entry.
fn pool_entry(fields: &mut Fields<'_>, pool: usize) -> Result<u32, LineFault>
    ensures { IfOk result (λ entry. entry < pool) }
{
    fields.byte(b'#')?;
    let entry = fields.number(u64::from(u32::MAX))? as u32;
    if (entry as usize) < pool {
        Ok(entry)
    } else {
        Err(LineFault::Form)
    }
}

/// Reads the number of a label.
pub fn label(fields: &mut Fields<'_>) -> Result<u32, LineFault> {
    Ok(fields.number(u64::from(u32::MAX))? as u32)
}

/// Reads where an instruction goes.
pub fn target(fields: &mut Fields<'_>) -> Result<Target, LineFault> {
    if fields.takes(b'-') {
        Ok(Target::Fails)
    } else {
        Ok(Target::Label(label(fields)?))
    }
}

/// Reads where a switch goes with a reference.
pub fn switch_target(fields: &mut Fields<'_>) -> Result<SwitchTarget, LineFault> {
    if fields.takes(b'*') {
        return Ok(SwitchTarget::Never);
    }
    match target(fields)? {
        Target::Label(number) => Ok(SwitchTarget::Label(number)),
        Target::Fails => Ok(SwitchTarget::Fails),
    }
}

/// Reads the size of a frame at a label.
pub fn frame(fields: &mut Fields<'_>) -> Result<Option<u16>, LineFault> {
    if fields.takes(b'-') {
        return Ok(None);
    }
    fields.byte(b'f')?;
    Ok(Some(slots(fields)?))
}

/// Reads how many slots a frame has.
pub fn slots(fields: &mut Fields<'_>) -> Result<u16, LineFault> {
    let slots = fields.number(MOST_SLOTS)? as u16;
    if slots == 0 {
        Err(LineFault::Form)
    } else {
        Ok(slots)
    }
}

/// Reads a built-in that an instruction does.
pub fn builtin(
    alloc: Global,
    fields: &mut Fields<'_>,
    atoms: &mut Atoms,
) -> Result<Builtin, LineFault> {
    let name = names::atom(alloc, fields, atoms)?;
    fields.byte(b'/')?;
    let arity = fields.number(3)? as usize;
    match Builtin::of(name, arity) {
        Some(builtin) if words::is_code_builtin(builtin) => Ok(builtin),
        _ => Err(LineFault::Form),
    }
}
