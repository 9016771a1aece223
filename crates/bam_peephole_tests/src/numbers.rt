//! Labels whose numbers are in no order, which no text has.

use aq_term::atom::Atom;
use aq_term::atoms::Atoms;
use aq_term::entries::Entries;
use aq_term::memory::Memory;
use aq_term::pool::Pool;
use aq_term::proc_name::ProcName;
use bam_code::arg_types::ArgTypes;
use bam_code::code::Code;
use bam_code::constant::Constant;
use bam_code::items::Items;
use bam_code::line::Line;
use bam_code::lines::Lines;
use bam_code::procedure::Proc;
use bam_code::procs::Procs;
use bam_code::signature::Signature;
use bam_code::signatures::Signatures;
use bam_code::target::Target;
use bam_code::types::Types;
use bam_peephole::clean::clean;
use bam_text::print::print;
use std::alloc::Global;
use std::test::Fail;

/// A code of one procedure without arguments.
fn code_of(alloc: Global, lines: Vec<Line>) -> Result<Code, Memory> {
    let mut procs = Procs::new(alloc);
    procs.push(Proc {
        signature: Signature {
            name: ProcName {
                name: Atom::NIL,
                arity: 0,
                part: 0,
                width: 0,
            },
            args: ArgTypes::new(alloc),
            results: Types::new(alloc),
        },
        lines: Lines::from_vec(lines),
    })?;
    Ok(Code {
        entries: Entries::new(alloc),
        imports: Signatures::new(alloc),
        pool: Pool::new(alloc),
        procs,
    })
}

fn label(alloc: Global, number: u32) -> Line {
    Line::Label {
        number,
        frame: None,
        items: Items::new(alloc),
    }
}

fn test_to(number: u32) -> Line {
    Line::Match {
        register: 5,
        constant: Constant::Int(6),
        other: Target::Label(number),
    }
}

const NUMBERED: &[u8] = b"bam 1
proc '[]'/0 ->
match r5 6 1
match r5 6 0
label 0 -
match r5 6 2
return
label 1 -
fail
label 2 -
fail
end
";

#[test]
fn labels_are_numbered_in_text_order(rt: HostRuntime) -> Result<(), Fail> {
    let alloc = rt.alloc();
    let mut lines = Vec::new(alloc);
    lines.push(test_to(40))?;
    lines.push(test_to(4000000000))?;
    lines.push(Line::Jump(Target::Label(4000000000)))?;
    lines.push(label(alloc, 12))?;
    lines.push(Line::Fail)?;
    lines.push(label(alloc, 4000000000))?;
    lines.push(test_to(0))?;
    lines.push(Line::Return)?;
    lines.push(label(alloc, 40))?;
    lines.push(Line::Fail)?;
    lines.push(label(alloc, 7))?;
    lines.push(label(alloc, 0))?;
    lines.push(Line::Fail)?;
    let cleaned = clean(alloc, code_of(alloc, lines)?)?;
    let printed = print(alloc, &cleaned, &Atoms::new(alloc)?)?;
    assert!(rt; printed.as_slice() == NUMBERED);
    Ok(())
}

const NOWHERE: &[u8] = b"bam 1
proc '[]'/0 ->
match r5 6 4294967295
match r5 6 0
fail
label 0 -
fail
end
";

#[test]
fn number_that_no_later_label_has_stays_without_one(rt: HostRuntime) -> Result<(), Fail> {
    let alloc = rt.alloc();
    let mut lines = Vec::new(alloc);
    lines.push(test_to(0))?;
    lines.push(test_to(1))?;
    lines.push(Line::Fail)?;
    lines.push(label(alloc, 1))?;
    lines.push(Line::Fail)?;
    let cleaned = clean(alloc, code_of(alloc, lines)?)?;
    let printed = print(alloc, &cleaned, &Atoms::new(alloc)?)?;
    assert!(rt; printed.as_slice() == NOWHERE);
    Ok(())
}
