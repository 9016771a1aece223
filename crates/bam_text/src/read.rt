ghost use Rattle.std.specs.Prelude.{◌≡◌, ℕ, ◌+◌, ◌<◌, ◌≤◌, Err, OnOk, OnErr, length};
ghost use Rattle.bam_text.specs.TextLeft.{new_lines, line_bound};
ghost use Rattle.bam_text.specs.declared.fault.LineFault.TheVariants as line_fault;
ghost use Rattle.bam_text.specs.declared.fault.TextFault.TheVariants as fault;

use crate::fault::{LineFault, TextFault};
use crate::fields::Fields;
use crate::ground::ground;
use crate::instruction::line;
use crate::scope::Scope;
use crate::signature_text::{entry, signature};
use crate::text_lines::TextLines;
use crate::version::{Version, catches};
use aq_term::atoms::Atoms;
use aq_term::entries::Entries;
use aq_term::pool::Pool;
use aq_term::proc_name::ProcName;
use bam_code::code::Code;
use bam_code::line::Line;
use bam_code::lines::Lines;
use bam_code::procedure::Proc;
use bam_code::procs::Procs;
use bam_code::signature::Signature;
use bam_code::signatures::Signatures;
use std::alloc::Global;
use std::collections::HashSet;

/// A name as a key: its atom's number, its arity, its part and its width.
type Key = (u32, u8, u32, u8);

/// What stands at the top of a text, in this order.
#[derive(Clone, Copy, Debug, PartialEq, Eq, PartialOrd, Ord)]
enum Section {
    Entries,
    Imports,
    Pool,
    Procs,
}

impl Section {
    /// The section of a line that begins with this word.
    fn of_word(word: &[u8]) -> Result<Section, LineFault> {
        match word {
            b"entry" => Ok(Section::Entries),
            b"import" => Ok(Section::Imports),
            b"pool" => Ok(Section::Pool),
            b"proc" => Ok(Section::Procs),
            _ => Err(LineFault::Form),
        }
    }
}

/// Reads a code from its text. The names that are not in the table are added to it. A table that is full is answered as
/// want of memory.
pub fn read(alloc: Global, bytes: &[u8], atoms: &mut Atoms) -> Result<Code, TextFault>
    ensures first { (line : ℕ) → result ≡ Err (fault.Line line) → 1 ≤ line }
    ensures last { (line : ℕ) → result ≡ Err (fault.Line line) → line ≤ new_lines bytes.now + 1 }
{
    let mut lines = TextLines::new(bytes);
    match text(alloc, &mut lines, atoms) {
        Ok(code) => Ok(code),
        Err(LineFault::Form) => Err(TextFault::Line(lines.number())),
        Err(LineFault::Memory) => Err(TextFault::Memory),
    }
}

/// Reads all lines. Where it answers `Form`, the line that was last asked for is the faulty one.
fn text(alloc: Global, lines: &mut TextLines<'_>, atoms: &mut Atoms) -> Result<Code, LineFault>
    ensures last { result ≡ Err line_fault.Form → lines.new.number ≤ line_bound lines.old }
    ensures first { result ≡ Err line_fault.Form → lines.old.number < lines.new.number }
{
    let version = Version::of_text(lines.next_line()?).ok_or(LineFault::Form)?;
    let mut reader = Reader::new(alloc, version);
    while !lines.is_at_end() {
        reader.top_line(lines, atoms)?;
    }
    if reader.needs == version {
        return Ok(reader.code());
    }
    // Some line that the version is for is missing.
    lines.next_line()?;
    Err(LineFault::Form)
}

/// What was read so far.
#[derive(Debug, Drop)]
struct Reader<'a> {
    alloc: Global,
    /// The version that the first line names.
    version: Version,
    /// The least version for the lines so far.
    needs: Version,
    section: Section,
    entries: Entries,
    imports: Signatures,
    pool: Pool,
    procs: Procs,
    entry_names: HashSet<Key>,
    /// The names of imports and procedures.
    names: HashSet<Key>,
    /// The lines of the pool.
    pool_lines: HashSet<&'a [u8]>,
}

impl<'a> Reader<'a> {
    fn new(alloc: Global, version: Version) -> Reader<'a> {
        Reader {
            alloc,
            version,
            needs: Version::One,
            section: Section::Entries,
            entries: Entries::new(alloc),
            imports: Signatures::new(alloc),
            pool: Pool::new(alloc),
            procs: Procs::new(alloc),
            entry_names: HashSet::new(alloc),
            names: HashSet::new(alloc),
            pool_lines: HashSet::new(alloc),
        }
    }

    fn code(self) -> Code {
        let Reader {
            alloc: _,
            version: _,
            needs: _,
            section: _,
            entries,
            imports,
            pool,
            procs,
            entry_names: _,
            names: _,
            pool_lines: _,
        } = self;
        Code {
            entries,
            imports,
            pool,
            procs,
        }
    }

    /// Reads an entry, an import, a pool entry or a whole procedure.
    fn top_line(&mut self, lines: &mut TextLines<'a>, atoms: &mut Atoms) -> Result<(), LineFault>
        ensures shorter { OnOk result (length lines.new.rest < length lines.old.rest) }
        ensures bound { OnOk result (line_bound lines.new ≤ line_bound lines.old) }
        ensures last { OnErr result (lines.new.number ≤ line_bound lines.old) }
        ensures later { OnOk result (lines.old.number < lines.new.number) }
        ensures first { result ≡ Err line_fault.Form → lines.old.number < lines.new.number }
    {
        let text = lines.next_line()?;
        let mut fields = Fields::new(text);
        let section = Section::of_word(fields.word())?;
        if section < self.section {
            return Err(LineFault::Form);
        }
        self.section = section;
        match section {
            Section::Entries => self.entry(&mut fields, atoms),
            Section::Imports => self.import(&mut fields, atoms),
            Section::Pool => self.pool_entry(text, &mut fields, atoms),
            Section::Procs => self.procedure(&mut fields, lines, atoms),
        }
    }

    fn entry(&mut self, fields: &mut Fields<'_>, atoms: &mut Atoms) -> Result<(), LineFault> {
        let entry = entry(self.alloc, fields, atoms)?;
        let key = (entry.name.number, entry.arity, 0, entry.arity);
        if !self.entry_names.insert(key)? {
            return Err(LineFault::Form);
        }
        Ok(self.entries.push(entry)?)
    }

    fn import(&mut self, fields: &mut Fields<'_>, atoms: &mut Atoms) -> Result<(), LineFault> {
        let signature = self.signature(fields, atoms)?;
        Ok(self.imports.push(signature)?)
    }

    /// Reads a signature of a name that no import or procedure before has.
    fn signature(
        &mut self,
        fields: &mut Fields<'_>,
        atoms: &mut Atoms,
    ) -> Result<Signature, LineFault> {
        let signature = signature(self.alloc, fields, atoms)?;
        if !self.names.insert(key(&signature.name))? {
            return Err(LineFault::Form);
        }
        Ok(signature)
    }

    fn pool_entry(
        &mut self,
        text: &'a [u8],
        fields: &mut Fields<'_>,
        atoms: &mut Atoms,
    ) -> Result<(), LineFault> {
        fields.space()?;
        let term = ground(self.alloc, fields, atoms)?;
        fields.end()?;
        if !self.pool_lines.insert(text)? {
            return Err(LineFault::Form);
        }
        Ok(self.pool.push(term)?)
    }

    fn procedure(
        &mut self,
        fields: &mut Fields<'_>,
        lines: &mut TextLines<'a>,
        atoms: &mut Atoms,
    ) -> Result<(), LineFault>
        ensures shorter { OnOk result (length lines.new.rest ≤ length lines.old.rest) }
        ensures bound { OnOk result (line_bound lines.new ≤ line_bound lines.old) }
        ensures last { OnErr result (lines.new.number ≤ line_bound lines.old) }
        ensures later { OnOk result (lines.old.number ≤ lines.new.number) }
        ensures first { result ≡ Err line_fault.Form → lines.old.number ≤ lines.new.number }
    {
        let signature = self.signature(fields, atoms)?;
        let mut scope = Scope {
            pool: self.pool.len(),
            args: signature.args.as_slice(),
            labels: 0,
        };
        let mut body = Vec::new(self.alloc);
        loop {
            let text = lines.next_line()?;
            if text == b"end".as_slice() {
                break;
            }
            let line = line(self.alloc, &mut Fields::new(text), atoms, &scope)?;
            self.note(&line)?;
            if is_label(&line) {
                scope.labels += 1;
            }
            body.push(line)?;
        }
        if body.is_empty() {
            return Err(LineFault::Form);
        }
        Ok(
            self.procs.push(Proc {
                signature,
                lines: Lines::from_vec(body),
            })?,
        )
    }

    /// Notes the version that a line needs.
    fn note(&mut self, line: &Line) -> Result<(), LineFault> {
        if catches(line) {
            if self.version == Version::One {
                return Err(LineFault::Form);
            }
            self.needs = Version::Two;
        }
        Ok(())
    }
}

fn key(name: &ProcName) -> Key {
    (name.name.number, name.arity, name.part, name.width)
}

/// Whether a line is numbered among the labels.
fn is_label(line: &Line) -> bool {
    matches!(
        line,
        Line::Label { .. } | Line::Alt { .. } | Line::Ball { .. }
    )
}
