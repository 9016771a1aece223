//! The code has a text, and that text is no other code's: its registers and slots are within bounds, and its labels are numbered from 0
//! in their order.

use crate::compiled::Compiled;
use aq_term::atoms::Atoms;
use bam_text::fault::TextFault;
use bam_text::print::print;
use bam_text::read::read;
use std::alloc::Global;
use std::test::Fail;

/// The line of the text that cannot be read, or that reading gives another code, where this is so.
pub fn broken(alloc: Global, compiled: &Compiled) -> Result<Option<String>, Fail> {
    let text = compiled.text(alloc)?;
    let mut atoms = Atoms::new(alloc)?;
    match read(alloc, text.as_bytes(), &mut atoms) {
        Ok(code) => {
            let again = print(alloc, &code, &atoms)?;
            if again.as_slice() == text.as_bytes() {
                return Ok(None);
            }
            Ok(Some(String::from_str(alloc, "the text is read as another code")?))
        }
        Err(TextFault::Line(line)) => Ok(Some(format!(in alloc;
            "line {line} of the text is faulty"
        )?)),
        Err(TextFault::Memory) => Err(Fail::new("out of memory")),
    }
}
