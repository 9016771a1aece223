use aq_term::atoms::Atoms;
use aq_term::memory::Memory;
use bam_code::code::Code;
use bam_peephole::clean::clean;
use bam_text::print::print;
use bam_text::read::read;
use bam_verify::verify::verify;
use reg_alloc::allocate::allocate;
use std::alloc::Global;
use std::process::Abort;
use std::test::Fail;

/// What each text of a table may call, and its pool.
pub const NAMES: &str = "\
import 'plain'/0 ->
import 'any'/1 any -> any
import 'learns'/1 any -> ground
import 'tests'/1 any -> nonvar
import 'direct'/1 direct -> nonvar
import 'full'/1 full -> ground
import 'makes'/1 out -> any
import 'makes_full'/1 out -> full
import 'makes_direct'/1 out -> direct
import 'makes_two'/2 out out -> any any
import 'cuts'/1 bar -> bar
import 'takes'/2 any out -> ground any
pool 'f'(1)
pool '.'(1,'[]')
";

/// The text of one procedure behind the names, of which the lines stand between ` / `.
pub fn text_of(
    alloc: Global,
    version: &str,
    signature: &str,
    lines: &str,
) -> Result<String, Memory> {
    let mut text = format!(in alloc; "bam {version}\n{NAMES}proc {signature}\n")?;
    for line in lines.split(" / ") {
        text.push_str(line)?;
        text.push_str("\n")?;
    }
    text.push_str("end\n")?;
    Ok(text)
}

/// What a text is allocated to.
pub fn allocated(alloc: Global, text: &str) -> Result<Vec<u8>, Fail> {
    let mut atoms = Atoms::new(alloc)?;
    let code = read(alloc, text.as_bytes(), &mut atoms)?;
    Ok(print(alloc, &allocate(alloc, code)?, &atoms)?)
}

/// The code of a text.
pub fn code_of(alloc: Global, text: &str) -> Result<Code, Fail> {
    let mut atoms = Atoms::new(alloc)?;
    Ok(read(alloc, text.as_bytes(), &mut atoms)?)
}

/// Whether the verifier accepts a code.
pub fn accepts(alloc: Global, code: Code) -> bool {
    verify(alloc, code).is_ok()
}

/// Each row has the lines of an accepted procedure with this signature, and then the lines that it is allocated to. These are accepted,
/// and allocating them changes nothing.
pub fn allocates(rt: &impl Abort, alloc: Global, signature: &str, table: &str) -> Result<(), Fail> {
    for row in table.lines() {
        let (before, after) = row.split_once(" | ").ok_or("no lines after")?;
        let text = text_of(alloc, "1", signature, before)?;
        let wanted = text_of(alloc, "1", signature, after)?;
        assert_allocated(rt, alloc, text.as_str(), wanted.as_str(), row)?;
    }
    Ok(())
}

fn assert_allocated(
    rt: &impl Abort,
    alloc: Global,
    text: &str,
    wanted: &str,
    row: &str,
) -> Result<(), Fail> {
    assert!(rt;
        accepts(alloc, code_of(alloc, text)?),
        "accepted before: {row}"
    );
    assert!(rt;
        accepts(alloc, code_of(alloc, wanted)?),
        "accepted after: {row}"
    );
    let once = allocated(alloc, text)?;
    assert!(rt; once.as_slice() == wanted.as_bytes(), "allocated: {row}");
    let twice = allocated(alloc, wanted)?;
    assert!(rt;
        twice.as_slice() == wanted.as_bytes(),
        "allocated again: {row}"
    );
    Ok(())
}

/// Each row has the lines of an accepted procedure with this signature. They are accepted too when they are cleaned, when they are
/// allocated, and when they are both.
pub fn keeps_accepted(
    rt: &impl Abort,
    alloc: Global,
    version: &str,
    signature: &str,
    table: &str,
) -> Result<(), Fail> {
    for row in table.lines() {
        let text = text_of(alloc, version, signature, row)?;
        assert_kept(rt, alloc, text.as_str(), row)?;
    }
    Ok(())
}

/// An accepted text is accepted too when it is cleaned, when it is allocated, and when it is both.
pub fn assert_kept(rt: &impl Abort, alloc: Global, text: &str, row: &str) -> Result<(), Fail> {
    assert!(rt; accepts(alloc, code_of(alloc, text)?), "accepted: {row}");
    let cleaned = clean(alloc, code_of(alloc, text)?)?;
    assert!(rt; accepts(alloc, cleaned), "cleaned: {row}");
    let allocated = allocate(alloc, code_of(alloc, text)?)?;
    assert!(rt; accepts(alloc, allocated), "allocated: {row}");
    let both = allocate(alloc, clean(alloc, code_of(alloc, text)?)?)?;
    assert!(rt; accepts(alloc, both), "both: {row}");
    Ok(())
}
