//! Terms and answers as text.
#![tactic(auto)]

ghost use Rattle.std.specs.Prelude.{◌≡◌, IfOk};
ghost use Rattle.term_text.specs.Written.{term_text};
ghost use Rattle.aq_term.specs.PlainOf.{plain};

pub mod gap;
pub mod output;
pub mod setting;
pub mod spacing;
pub mod spelling;
#[cfg(test)]
mod tests;
pub mod variables;
pub mod writer;

use aq_term::args0::Args0;
use aq_term::atoms::Atoms;
use aq_term::memory::Memory;
use aq_term::names::Names;
use aq_term::term::Term;
use output::Output;
use setting::Setting;
use spelling::Quoting;
use std::alloc::Global;
use variables::Variables;

/// The priority of a value in an answer.
const VALUE: u16 = 699;

/// The text of a term, in brackets where its priority is above `most`, which is at most 1200. With `quoted` the text reads back as
/// the same term up to the names of variables. Variables are named `_0`, `_1`, .. in order of first occurrence. A name that is not
/// in the table has the empty text.
///
/// The call goes as deep in the stack as the term is deep.
pub fn write_term(
    alloc: Global,
    term: &Term,
    atoms: &Atoms,
    quoted: bool,
    most: u16,
) -> Result<Vec<u8>, Memory>
    ensures { IfOk result (λ text. text.items ≡ term_text atoms.now quoted most (plain term.now)) }
{
    let mut variables = Variables::new(alloc);
    variables.note(term)?;
    let setting = Setting {
        atoms,
        variables: &variables,
        quoting: Quoting::of(quoted),
    };
    let mut output = Output::new(alloc);
    setting.term(&mut output, term, most)?;
    Ok(output.into_bytes())
}

/// The lines of an answer: for each name other than `_` the line `NAME = TERM`, or the line `true` where there is none, and then the
/// line `;`. Variables are numbered over all terms together.
///
/// The call goes as deep in the stack as the deepest term is deep.
pub fn answer_text(
    alloc: Global,
    names: &Names,
    values: &Args0,
    atoms: &Atoms,
) -> Result<Vec<u8>, Memory> {
    let mut variables = Variables::new(alloc);
    for (name, value) in names.as_slice().iter().zip(values.as_slice()) {
        if is_shown(name.as_str()) {
            variables.note(value)?;
        }
    }
    let setting = Setting {
        atoms,
        variables: &variables,
        quoting: Quoting::Quoted,
    };
    let mut output = Output::new(alloc);
    for (name, value) in names.as_slice().iter().zip(values.as_slice()) {
        if is_shown(name.as_str()) {
            write_binding(&setting, &mut output, name.as_str(), value)?;
        }
    }
    if output.is_empty() {
        output.bytes(b"true\n")?;
    }
    output.bytes(b";\n")?;
    Ok(output.into_bytes())
}

/// Whether a variable of this name stands in an answer.
fn is_shown(name: &str) -> bool {
    name != "_"
}

/// Writes the line `NAME = TERM`.
fn write_binding(
    setting: &Setting,
    output: &mut Output,
    name: &str,
    value: &Term,
) -> Result<(), Memory> {
    output.bytes(name.as_bytes())?;
    output.bytes(b" = ")?;
    setting.term(output, value, VALUE)?;
    output.byte(b'\n')
}
