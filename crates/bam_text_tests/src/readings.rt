//! What the tests share.
use aq_term::atoms::Atoms;
use bam_text::fault::TextFault;
use bam_text::print::print;
use bam_text::read::read;
use std::alloc::Global;
use std::process::Abort;
use std::test::Fail;

/// Reads a text, and gives its first faulty line, or 0 where there is none. What is printed of an accepted text is that text.
pub fn faulty_line(rt: &impl Abort, alloc: Global, text: &str) -> Result<u64, Fail> {
    let mut atoms = Atoms::new(alloc)?;
    match read(alloc, text.as_bytes(), &mut atoms) {
        Ok(code) => {
            let printed = print(alloc, &code, &atoms)?;
            assert_eq!(rt; printed.as_slice(), text.as_bytes(), "{text}");
            Ok(0)
        }
        Err(TextFault::Line(line)) => Ok(line),
        Err(TextFault::Memory) => {
            assert!(rt; false, "memory: {text}");
            Ok(0)
        }
    }
}

/// Reads texts whose fifth line is one of these, in a procedure with the arguments any, out, bar, ground, after its first
/// label. Each has this first faulty line.
pub fn expect_lines(
    rt: &impl Abort,
    alloc: Global,
    lines: &str,
    version: &str,
    last: &str,
    faulty: u64,
) -> Result<(), Fail> {
    for line in lines.split('\n') {
        let text = format!(in alloc;
            "bam {version}\npool 'f'(1)\nproc 'p'/4 any out bar ground -> any full bar ground\nlabel 0 - a0:any a3:ground\n{line}\n{last}\nend\n"
        )?;
        assert_eq!(rt; faulty_line(rt, alloc, text.as_str())?, faulty, "{line}");
    }
    Ok(())
}

/// A text that is written with `|` in the place of each new line.
pub fn text_of(alloc: Global, written: &str) -> Result<String, Fail> {
    let mut text = String::new(alloc);
    for piece in written.chars() {
        text.push(if piece == '|' { '\n' } else { piece })?;
    }
    Ok(text)
}
