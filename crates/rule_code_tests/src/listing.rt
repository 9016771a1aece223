use aq_term::atoms::Atoms;
use aq_term::proc_name::ProcName;
use bam_code::code::Code;
use bam_code::line::Line;
use bam_code::target::Target;
use std::alloc::Global;
use std::fmt::Write;
use std::test::Fail;

/// The code as text, a procedure a line: its name, a colon, and its lines with commas between.
pub fn listing(alloc: Global, code: &Code, atoms: &Atoms) -> Result<String, Fail> {
    let mut text = String::new(alloc);
    for proc in code.procs.as_slice() {
        let name = name_text(atoms, &proc.signature.name);
        write!(text, "{name}:")?;
        for line in proc.lines.as_slice() {
            write_line(&mut text, line, atoms)?;
        }
        writeln!(text)?;
    }
    Ok(text)
}

fn name_text<'a>(atoms: &'a Atoms, name: &ProcName) -> &'a str {
    atoms.text_or_empty(name.name)
}

fn write_line(text: &mut String, line: &Line, atoms: &Atoms) -> Result<(), Fail> {
    match line {
        Line::Label { number, .. } => write!(text, " label {number}")?,
        Line::Alt { number, .. } => write!(text, " alt {number}")?,
        Line::Fail => write!(text, " fail")?,
        Line::Call(name) => write!(text, " call {}", name_text(atoms, name))?,
        Line::Exec(name) => write!(text, " exec {}", name_text(atoms, name))?,
        Line::Return => write!(text, " return")?,
        Line::Allocate(slots) => write!(text, " allocate {slots}")?,
        Line::Deallocate => write!(text, " deallocate")?,
        Line::Try {
            registers,
            alternative,
        } => {
            write!(text, " try {registers}")?;
            write_target(text, alternative)?;
        }
        Line::Retry(alternative) => {
            write!(text, " retry")?;
            write_target(text, alternative)?;
        }
        Line::Trust => write!(text, " trust")?,
        _ => write!(text, " a line that no rule gives")?,
    }
    Ok(())
}

fn write_target(text: &mut String, target: &Target) -> Result<(), Fail> {
    match target {
        Target::Label(number) => write!(text, " {number}")?,
        Target::Fails => write!(text, " -")?,
    }
    Ok(())
}
