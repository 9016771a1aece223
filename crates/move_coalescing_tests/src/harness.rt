use aq_term::atoms::Atoms;
use aq_term::memory::Memory;
use bam_code::code::Code;
use bam_text::print::print;
use bam_text::read::read;
use bam_verify::verify::verify;
use move_coalescing::coalesce::coalesce;
use std::alloc::Global;
use std::process::Abort;
use std::test::Fail;

/// What each text of a table may call, and its pool.
pub const NAMES: &str = "\
import 'plain'/0 ->
import 'one'/1 any -> any
import 'two'/2 any any -> any any
import 'three'/3 any any any -> any any any
import 'makes'/2 any out -> any full
pool 'f'(1)
";

/// The text of one procedure behind the names, of which the lines stand between ` / `. Only the second version has
/// catchers, and raises the words of registers.
fn text_of(alloc: Global, signature: &str, lines: &str) -> Result<String, Memory> {
    let is_second = lines.contains("catch") || lines.contains("raise r");
    let version = if is_second { "2" } else { "1" };
    let mut text = format!(in alloc; "bam {version}\n{NAMES}proc {signature}\n")?;
    for line in lines.split(" / ") {
        text.push_str(line)?;
        text.push_str("\n")?;
    }
    text.push_str("end\n")?;
    Ok(text)
}

/// What a text becomes.
fn coalesced(alloc: Global, text: &str) -> Result<Vec<u8>, Fail> {
    let mut atoms = Atoms::new(alloc)?;
    let code = read(alloc, text.as_bytes(), &mut atoms)?;
    Ok(print(alloc, &coalesce(alloc, code)?, &atoms)?)
}

/// Whether the verifier accepts a text.
fn accepted(alloc: Global, text: &str) -> Result<bool, Fail> {
    let mut atoms = Atoms::new(alloc)?;
    let code = read(alloc, text.as_bytes(), &mut atoms)?;
    Ok(accepts(alloc, code))
}

fn accepts(alloc: Global, code: Code) -> bool {
    verify(alloc, code).is_ok()
}

/// Each row has the lines of an accepted procedure with this signature, and then the lines that they become. These are accepted, and
/// they stay.
pub fn becomes(rt: &impl Abort, alloc: Global, signature: &str, table: &str) -> Result<(), Fail> {
    for row in table.lines() {
        let (before, after) = row.split_once(" | ").ok_or("no lines after")?;
        let text = text_of(alloc, signature, before)?;
        let wanted = text_of(alloc, signature, after)?;
        assert_becomes(rt, alloc, text.as_str(), wanted.as_str(), row)?;
    }
    Ok(())
}

/// Each row has the lines of an accepted procedure with this signature, which stay as they are.
pub fn stays(rt: &impl Abort, alloc: Global, signature: &str, table: &str) -> Result<(), Fail> {
    for row in table.lines() {
        let text = text_of(alloc, signature, row)?;
        assert_becomes(rt, alloc, text.as_str(), text.as_str(), row)?;
    }
    Ok(())
}

/// One accepted text becomes another one, which is accepted and stays.
fn assert_becomes(
    rt: &impl Abort,
    alloc: Global,
    text: &str,
    wanted: &str,
    row: &str,
) -> Result<(), Fail> {
    assert!(rt; accepted(alloc, text)?, "accepted before: {row}");
    assert!(rt; accepted(alloc, wanted)?, "accepted after: {row}");
    let once = coalesced(alloc, text)?;
    assert!(rt; once.as_slice() == wanted.as_bytes(), "becomes: {row}");
    let twice = coalesced(alloc, wanted)?;
    assert!(rt; twice.as_slice() == wanted.as_bytes(), "stays: {row}");
    Ok(())
}
