ghost use Rattle.std.specs.Prelude.{◌<◌, ◌≤◌, OnOk, IfOk, length};

use crate::fault::LineFault;
use crate::fields::Fields;
use aq_term::atom::Atom;
use aq_term::atoms::Atoms;
use aq_term::functor::Functor;
use aq_term::proc_name::ProcName;
use std::alloc::Global;

/// How many names a table has at most. A table that is full wants memory.
const MOST_NAMES: usize = 4_294_967_294;

/// The most arguments of a source predicate.
const MOST_ARITY: u64 = 63;

/// The most arguments of an auxiliary predicate.
const MOST_WIDTH: u64 = 64;

/// Reads an atom in single quotes.
pub fn atom(alloc: Global, fields: &mut Fields<'_>, atoms: &mut Atoms) -> Result<Atom, LineFault>
    ensures shorter { OnOk result (length fields.new < length fields.old) }
    ensures within { length fields.new ≤ length fields.old }
{
    let Ok(text) = String::from_utf8(quoted(alloc, fields)?) else {
        return Err(LineFault::Form);
    };
    if atoms.len() > MOST_NAMES {
        return Err(LineFault::Memory);
    }
    Ok(atoms.number(text.as_str())?)
}

/// Reads quoted bytes, and gives those that they stand for.
fn quoted(alloc: Global, fields: &mut Fields<'_>) -> Result<Vec<u8>, LineFault>
    ensures shorter { OnOk result (length fields.new < length fields.old) }
    ensures within { length fields.new ≤ length fields.old }
{
    fields.byte(b'\'')?;
    let mut text = Vec::new(alloc);
    while let Some(byte) = quoted_byte(fields)? {
        text.push(byte)?;
    }
    Ok(text)
}

/// Reads a byte of quoted text, or the closing quote, which gives no byte.
fn quoted_byte(fields: &mut Fields<'_>) -> Result<Option<u8>, LineFault>
    ensures shorter { OnOk result (length fields.new < length fields.old) }
    ensures within { length fields.new ≤ length fields.old }
{
    match fields.next_byte()? {
        b'\'' => Ok(None),
        b'\\' => Ok(Some(escape(fields)?)),
        0..=31 | 127 => Err(LineFault::Form),
        byte => Ok(Some(byte)),
    }
}

/// Reads what follows a backslash.
fn escape(fields: &mut Fields<'_>) -> Result<u8, LineFault>
    ensures within { length fields.new ≤ length fields.old }
{
    match fields.next_byte()? {
        b'\\' => Ok(b'\\'),
        b'\'' => Ok(b'\''),
        b'n' => Ok(b'\n'),
        b'x' => code(fields),
        _ => Err(LineFault::Form),
    }
}

/// Reads a control code in hexadecimal and its backslash. A new line has an escape of its own.
fn code(fields: &mut Fields<'_>) -> Result<u8, LineFault>
    ensures within { length fields.new ≤ length fields.old }
{
    let first = hexadecimal(fields.next_byte()?)?;
    let next = fields.next_byte()?;
    let code = if next == b'\\' {
        first
    } else {
        let second = hexadecimal(next)?;
        fields.byte(b'\\')?;
        two_digits(first, second)?
    };
    match code {
        b'\n' => Err(LineFault::Form),
        0..=31 | 127 => Ok(code),
        _ => Err(LineFault::Form),
    }
}

/// The number of two digits, the first of which is not 0.
fn two_digits(first: u8, second: u8) -> Result<u8, LineFault> {
    match first.checked_mul(16) {
        Some(high) if high != 0 => high.checked_add(second).ok_or(LineFault::Form),
        _ => Err(LineFault::Form),
    }
}

/// The value of a lower-case digit of base 16.
fn hexadecimal(digit: u8) -> Result<u8, LineFault>
    ensures { IfOk result (λ value. value < 16) }
{
    match digit {
        b'0'..=b'9' => Ok(digit - b'0'),
        b'a'..=b'f' => Ok(digit - b'a' + 10),
        _ => Err(LineFault::Form),
    }
}

/// Reads the name of a predicate.
pub fn name(
    alloc: Global,
    fields: &mut Fields<'_>,
    atoms: &mut Atoms,
) -> Result<ProcName, LineFault> {
    let name = atom(alloc, fields, atoms)?;
    fields.byte(b'/')?;
    let arity = fields.number(MOST_ARITY)? as u8;
    if !fields.takes(b'#') {
        return Ok(ProcName {
            name,
            arity,
            part: 0,
            width: arity,
        });
    }
    let part = fields.number(u64::from(u32::MAX))? as u32;
    if part == 0 {
        return Err(LineFault::Form);
    }
    fields.byte(b'/')?;
    let width = fields.number(MOST_WIDTH)? as u8;
    Ok(ProcName {
        name,
        arity,
        part,
        width,
    })
}

/// Reads the functor of structures, which is not that of list cells.
pub fn functor(
    alloc: Global,
    fields: &mut Fields<'_>,
    atoms: &mut Atoms,
) -> Result<Functor, LineFault>
    ensures shorter { OnOk result (length fields.new < length fields.old) }
    ensures within { length fields.new ≤ length fields.old }
{
    let name = atom(alloc, fields, atoms)?;
    fields.byte(b'/')?;
    let arity = fields.number(255)? as u8;
    if arity == 0 || (name == Atom::LIST && arity == 2) {
        return Err(LineFault::Form);
    }
    Ok(Functor { name, arity })
}
