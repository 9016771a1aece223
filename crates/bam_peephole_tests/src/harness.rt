use aq_term::atoms::Atoms;
use aq_term::memory::Memory;
use bam_code::code::Code;
use bam_peephole::clean::clean;
use bam_text::print::print;
use bam_text::read::read;
use bam_verify::verify::verify;
use std::alloc::Global;
use std::process::Abort;
use std::test::Fail;

/// What each text of a table may call.
pub const NAMES: &str = "\
import 'plain'/0 ->
import 'any'/1 any -> any
import 'makes'/1 out -> any
";

/// The text of one procedure behind the names, of which the lines stand between ` / `.
pub fn text_of(
    alloc: Global,
    version: &str,
    signature: &str,
    lines: &str,
) -> Result<String, Memory> {
    let mut text = format!(in alloc; "bam {version}\n{NAMES}proc {signature}\n")?;
    for line in lines.split(" / ") {
        text.push_str(line)?;
        text.push_str("\n")?;
    }
    text.push_str("end\n")?;
    Ok(text)
}

/// What a text is cleaned to.
pub fn cleaned(alloc: Global, text: &str) -> Result<Vec<u8>, Fail> {
    let mut atoms = Atoms::new(alloc)?;
    let code = read(alloc, text.as_bytes(), &mut atoms)?;
    Ok(print(alloc, &clean(alloc, code)?, &atoms)?)
}

/// Whether the verifier accepts a text.
pub fn accepted(alloc: Global, text: &str) -> Result<bool, Fail> {
    let mut atoms = Atoms::new(alloc)?;
    let code = read(alloc, text.as_bytes(), &mut atoms)?;
    Ok(accepts(alloc, code))
}

fn accepts(alloc: Global, code: Code) -> bool {
    verify(alloc, code).is_ok()
}

/// Each row has the lines of an accepted procedure with this signature, and then the lines that it is cleaned to. These are accepted,
/// and cleaning them changes nothing.
pub fn cleans(
    rt: &impl Abort,
    alloc: Global,
    version: &str,
    signature: &str,
    table: &str,
) -> Result<(), Fail> {
    for row in table.lines() {
        let (before, after) = row.split_once(" | ").ok_or("no lines after")?;
        let text = text_of(alloc, version, signature, before)?;
        let wanted = text_of(alloc, version, signature, after)?;
        assert_cleaned(rt, alloc, text.as_str(), wanted.as_str(), row)?;
    }
    Ok(())
}

/// Each row has the lines of an accepted procedure with this signature, which cleaning leaves as they are.
pub fn stays(
    rt: &impl Abort,
    alloc: Global,
    version: &str,
    signature: &str,
    table: &str,
) -> Result<(), Fail> {
    for row in table.lines() {
        let text = text_of(alloc, version, signature, row)?;
        assert_cleaned(rt, alloc, text.as_str(), text.as_str(), row)?;
    }
    Ok(())
}

/// One accepted text is cleaned to another one, which is accepted and stays.
pub fn assert_cleaned(
    rt: &impl Abort,
    alloc: Global,
    text: &str,
    wanted: &str,
    row: &str,
) -> Result<(), Fail> {
    assert!(rt; accepted(alloc, text)?, "accepted before: {row}");
    assert!(rt; accepted(alloc, wanted)?, "accepted after: {row}");
    let once = cleaned(alloc, text)?;
    assert!(rt; once.as_slice() == wanted.as_bytes(), "cleaned: {row}");
    let twice = cleaned(alloc, wanted)?;
    assert!(rt;
        twice.as_slice() == wanted.as_bytes(),
        "cleaned again: {row}"
    );
    Ok(())
}
