ghost use Rattle.std.specs.Prelude.{◌≡◌, ℕ, ◌<◌, ◌≤◌, Err, length};
ghost use Rattle.part_link.specs.declared.parts_fault.PartsFault.TheVariants as fault;

use crate::codes::Codes;
use crate::parts_fault::PartsFault;
use aq_term::atoms::Atoms;
use bam_text::fault::TextFault;
use bam_text::read::read;
use std::alloc::Global;

/// Reads texts one after another. A part ends before the next line that begins a text. The names that are not in the
/// table are added to it.
pub fn read_parts(alloc: Global, bytes: &[u8], atoms: &mut Atoms) -> Result<Codes, PartsFault>
    ensures part { (part line : ℕ) → result ≡ Err (fault.Line part line) → 1 ≤ part }
    ensures line { (part line : ℕ) → result ≡ Err (fault.Line part line) → 1 ≤ line }
{
    let mut codes = Codes::new(alloc);
    let mut rest = bytes;
    let mut part: u64 = 1;
    loop {
        let (text, later) = rest.split_at(part_end(rest));
        match read(alloc, text, atoms) {
            Ok(code) => codes.push(code)?,
            Err(TextFault::Line(line)) => return Err(PartsFault::Line { part, line }),
            Err(TextFault::Memory) => return Err(PartsFault::Memory),
        }
        if later.is_empty() {
            return Ok(codes);
        }
        rest = later;
        part += 1;
    }
}

/// Where the first part ends: before the next line that begins a text, or else at the end.
fn part_end(bytes: &[u8]) -> usize
    ensures within { result ≤ length bytes.now }
    ensures some { 0 < length bytes.now → 0 < result }
{
    let mut at = line_end(bytes, 0);
    while at < bytes.len() && !begins_text(&bytes[at..]) {
        at = line_end(bytes, at);
    }
    at
}

/// Whether the first line begins a text.
fn begins_text(bytes: &[u8]) -> bool {
    bytes.starts_with(b"bam 1\n") || bytes.starts_with(b"bam 2\n")
}

/// The place after the line that begins at a place, or else the end.
fn line_end(bytes: &[u8], at: usize) -> usize
    requires { at ≤ length bytes.now }
    ensures within { result ≤ length bytes.now }
    ensures later { at < length bytes.now → at < result }
{
    let mut end = at;
    while end < bytes.len() {
        let byte = bytes[end];
        end += 1;
        if byte == b'\n' {
            return end;
        }
    }
    end
}
