//! Registers past r1023, which no text has.

use aq_term::atom::Atom;
use aq_term::atoms::Atoms;
use aq_term::entries::Entries;
use aq_term::memory::Memory;
use aq_term::pool::Pool;
use aq_term::proc_name::ProcName;
use bam_code::arg_types::ArgTypes;
use bam_code::code::Code;
use bam_code::line::Line;
use bam_code::lines::Lines;
use bam_code::place::Place;
use bam_code::procedure::Proc;
use bam_code::procs::Procs;
use bam_code::signature::Signature;
use bam_code::signatures::Signatures;
use bam_code::source::Source;
use bam_code::types::Types;
use bam_text::print::print;
use reg_alloc::allocate::allocate;
use std::alloc::Global;
use std::test::Fail;

/// A code of one procedure without arguments.
fn code_of(alloc: Global, lines: Vec<Line>) -> Result<Code, Memory> {
    let mut procs = Procs::new(alloc);
    procs.push(Proc {
        signature: Signature {
            name: ProcName {
                name: Atom::NIL,
                arity: 0,
                part: 0,
                width: 0,
            },
            args: ArgTypes::new(alloc),
            results: Types::new(alloc),
        },
        lines: Lines::from_vec(lines),
    })?;
    Ok(Code {
        entries: Entries::new(alloc),
        imports: Signatures::new(alloc),
        pool: Pool::new(alloc),
        procs,
    })
}

fn fresh(register: u16) -> Line {
    Line::Fresh { register }
}

fn move_to(into: u16, from: u16) -> Line {
    Line::Move {
        into: Place::Register(into),
        from: Source::Register(from),
    }
}

fn printed(alloc: Global, lines: Vec<Line>) -> Result<Vec<u8>, Fail> {
    let code = allocate(alloc, code_of(alloc, lines)?)?;
    Ok(print(alloc, &code, &Atoms::new(alloc)?)?)
}

const GREATEST: &[u8] = b"bam 1
proc '[]'/0 ->
fresh r64
fresh r65
move r0 r65
move r1 r64
return
end
";

#[test]
fn greatest_registers(rt: HostRuntime) -> Result<(), Fail> {
    let alloc = rt.alloc();
    let mut lines = Vec::new(alloc);
    lines.push(fresh(65535))?;
    lines.push(fresh(2000))?;
    lines.push(move_to(0, 2000))?;
    lines.push(move_to(1, 65535))?;
    lines.push(Line::Return)?;
    let text = printed(alloc, lines)?;
    assert!(rt; text.as_slice() == GREATEST);
    Ok(())
}

/// The text of a procedure that makes a cell in each of these registers, and then moves each to r0.
fn text_of_many(alloc: Global, registers: u16) -> Result<String, Memory> {
    let mut text = String::from_str(alloc, "bam 1\nproc '[]'/0 ->\n")?;
    for number in 0..registers {
        let register = u32::from(number) + 64;
        let line = format!(in alloc; "fresh r{register}\n")?;
        text.push_str(line.as_str())?;
    }
    for number in 0..registers {
        let register = u32::from(number) + 64;
        let line = format!(in alloc; "move r0 r{register}\n")?;
        text.push_str(line.as_str())?;
    }
    text.push_str("return\nend\n")?;
    Ok(text)
}

/// Lines that make a cell in each of as many registers, from the greatest one on down, and then move each to r0.
fn many(alloc: Global, registers: u16) -> Result<Vec<Line>, Memory> {
    let mut lines = Vec::new(alloc);
    for number in 0..registers {
        lines.push(fresh(u16::MAX - number))?;
    }
    for number in 0..registers {
        lines.push(move_to(0, u16::MAX - number))?;
    }
    lines.push(Line::Return)?;
    Ok(lines)
}

#[test]
fn as_many_registers_as_there_are(rt: HostRuntime) -> Result<(), Fail> {
    let alloc = rt.alloc();
    let text = printed(alloc, many(alloc, 960)?)?;
    let wanted = text_of_many(alloc, 960)?;
    assert!(rt; text.as_slice() == wanted.as_bytes());
    Ok(())
}

/// Lines that make a cell in each of as many registers, and move each to r0 at once.
fn one_after_another(alloc: Global, registers: u16) -> Result<Vec<Line>, Memory> {
    let mut lines = Vec::new(alloc);
    for number in 0..registers {
        lines.push(fresh(u16::MAX - number))?;
        lines.push(move_to(0, u16::MAX - number))?;
    }
    lines.push(Line::Return)?;
    Ok(lines)
}

fn text_of_one(alloc: Global, registers: u16) -> Result<String, Memory> {
    let mut text = String::from_str(alloc, "bam 1\nproc '[]'/0 ->\n")?;
    for _ in 0..registers {
        text.push_str("fresh r64\nmove r0 r64\n")?;
    }
    text.push_str("return\nend\n")?;
    Ok(text)
}

#[test]
fn many_registers_one_after_another(rt: HostRuntime) -> Result<(), Fail> {
    let alloc = rt.alloc();
    let text = printed(alloc, one_after_another(alloc, 2000)?)?;
    let wanted = text_of_one(alloc, 2000)?;
    assert!(rt; text.as_slice() == wanted.as_bytes());
    Ok(())
}
