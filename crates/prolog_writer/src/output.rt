ghost use Rattle.std.specs.Prelude.{◌≡◌, ◌↔◌, [], IsTrue, OnOk};
ghost use Rattle.term_text.specs.Pieces as pieces;
ghost use Rattle.prolog_writer.specs.GapOf.{gap_of};

use crate::gap::Gap;
use crate::spelling::is_symbol;
use aq_term::memory::Memory;
use std::alloc::Global;
use std::marker::Model;

/// The bytes written so far, and what stands before the next one.
#[derive(Debug, Drop)]
pub struct Output {
    bytes: Vec<u8>,
    gap: Gap,
}

impl Model for Output {
    ghost use Rattle.term_text.specs.Pieces.{Text};
    ghost use Rattle.prolog_writer.specs.GapOf.{gap_of};

    ghost Value = { Text };

    ghost view = { λ o. record { text = o.bytes.items; at_end = gap_of o.gap } };
}

impl Output {
    pub fn new(alloc: Global) -> Output
        ensures { result ≡ pieces.blank }
    {
        Output {
            bytes: Vec::new(alloc),
            gap: Gap::Closed,
        }
    }

    pub fn into_bytes(self) -> Vec<u8>
        ensures { result.items ≡ self.text }
    {
        let Output { bytes, gap: _ } = self;
        bytes
    }

    /// Whether nothing is written.
    pub fn is_empty(&self) -> bool
        ensures { IsTrue result ↔ (self.now.text ≡ []) }
    {
        self.bytes.is_empty()
    }

    /// Appends a byte, after a space where the gap asks for one.
    pub fn byte(&mut self, byte: u8) -> Result<(), Memory>
        ensures { OnOk result (self.new ≡ pieces.put self.old (pieces.byte byte)) }
    {
        if self.gap.wants_space(byte) {
            self.bytes.push(b' ')?;
        }
        self.gap = Gap::Closed;
        self.bytes.push(byte)?;
        Ok(())
    }

    /// Appends bytes, after a space where the gap asks for one before the first.
    pub fn bytes(&mut self, bytes: &[u8]) -> Result<(), Memory>
        ensures { OnOk result (self.new ≡ pieces.put_all self.old (pieces.bytes bytes.now)) }
    {
        match bytes {
            [] => Ok(()),
            [first, rest @ ..] => {
                self.byte(*first)?;
                self.bytes.extend_from_slice(rest)?;
                Ok(())
            }
        }
    }

    /// Ends a left operand: appends a space where the last byte is a symbol character.
    pub fn end_of_left(&mut self) -> Result<(), Memory>
        ensures { OnOk result (self.new ≡ pieces.put self.old pieces.end_of_left) }
    {
        if self.ends_in_symbol() {
            self.bytes.push(b' ')?;
            self.gap = Gap::Closed;
        }
        Ok(())
    }

    fn ends_in_symbol(&self) -> bool
        ensures { result ≡ pieces.ends_in_symbol self.now.text }
    {
        match self.bytes.last() {
            Some(last) => is_symbol(*last),
            None => false,
        }
    }

    /// Leaves a gap at the end.
    pub fn gap(&mut self, gap: Gap)
        ensures { self.new ≡ pieces.put self.old (pieces.gap (gap_of gap)) }
    {
        self.gap = gap;
    }
}
