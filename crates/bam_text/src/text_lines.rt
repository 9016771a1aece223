ghost use Rattle.std.specs.Prelude.{◌≡◌, ◌+◌, ◌<◌, ◌≤◌, ◌↔◌, [], Some, Err, IsTrue, OnOk, OnErr, IfSome, length, slice_get};
ghost use Rattle.bam_text.specs.TextLeft.{new_lines, line_bound};
ghost use Rattle.bam_text.specs.declared.fault.LineFault.TheVariants as fault;

use crate::fault::LineFault;
use std::marker::Model;

/// The lines of a text that are still to come, and the number of the one that was last asked for.
#[derive(Debug, Drop)]
pub struct TextLines<'a> {
    rest: &'a [u8],
    number: u64,
}

impl<'a> Model for TextLines<'a> {
    ghost use Rattle.bam_text.specs.TextLeft.{TextLeft};

    ghost Value = { TextLeft };

    ghost view = { λ l. record { rest = l.rest.now; number = l.number } };
}

impl<'a> TextLines<'a> {
    pub fn new(text: &'a [u8]) -> TextLines<'a>
        ensures { result ≡ record { rest = text.now; number = 0 } }
    {
        TextLines {
            rest: text,
            number: 0,
        }
    }

    /// The number of the line that was last asked for, from 1.
    pub fn number(&self) -> u64
        ensures { result ≡ self.now.number }
    {
        self.number
    }

    /// Whether the text is at its end.
    pub fn is_at_end(&self) -> bool
        ensures { IsTrue result ↔ (self.now.rest ≡ []) }
    {
        self.rest.is_empty()
    }

    /// The next line, without its new line. Where there is none its number is asked for all the same.
    pub fn next_line(&mut self) -> Result<&'a [u8], LineFault>
        ensures shorter { OnOk result (length self.new.rest < length self.old.rest) }
        ensures bound { OnOk result (line_bound self.new ≤ line_bound self.old) }
        ensures missing { OnErr result (self.new.number ≤ line_bound self.old) }
        ensures later { OnOk result (self.old.number < self.new.number) }
        ensures asked { result ≡ Err fault.Form → self.old.number < self.new.number }
    {
        self.number = self.number.checked_add(1).ok_or(LineFault::Memory)?;
        let Some((line, rest)) = split_line(self.rest) else {
            return Err(LineFault::Form);
        };
        self.rest = rest;
        Ok(line)
    }
}

/// The first line without its new line, and what follows it.
fn split_line<'a>(bytes: &'a [u8]) -> Option<(&'a [u8], &'a [u8])>
    ensures shorter { IfSome result (λ parts. length parts.1.now < length bytes.now) }
    ensures fewer { IfSome result (λ parts. new_lines parts.1.now + 1 ≤ new_lines bytes.now) }
{
    let end = line_end(bytes)?;
    let (line, rest) = bytes.split_at(end + 1);
    Some((&line[..end], rest))
}

/// The place of the first new line.
fn line_end(bytes: &[u8]) -> Option<usize>
    ensures within { IfSome result (λ end. end < length bytes.now) }
    ensures ends { IfSome result (λ end. slice_get bytes.now end ≡ Some 10) }
{
    for end in 0..bytes.len() {
        if bytes[end] == b'\n' {
            return Some(end);
        }
    }
    None
}
