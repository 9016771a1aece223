ghost use Rattle.std.specs.Prelude.{◌≡◌};

use crate::built::Built;
use crate::limits::{ARGUMENT, GREATEST};
use crate::row::Row;
use aq_term::atom::Atom;

/// What was begun before the term that is read now.
#[derive(Debug, Drop)]
pub enum Frame {
    /// An infix operator with its left operand. The right one has a priority of at most `most`.
    Infix {
        name: Atom,
        priority: u16,
        most: u16,
        left: Built,
    },
    /// A prefix operator, whose operand has a priority of at most `most`.
    Prefix {
        name: Atom,
        priority: u16,
        most: u16,
    },
    Brackets,
    Curly,
    /// A compound with the arguments before this one.
    Arguments {
        name: Atom,
        row: Row,
    },
    /// A list with the elements before this one.
    Elements(Row),
    /// A list's elements, behind which its tail is read.
    Tail(Row),
}

impl Frame {
    ghost use Rattle.prolog_reader.specs.Limits.{frame_most};

    /// The greatest priority of the term that is read in the frame.
    pub fn most(&self) -> u16
        ensures { result ≡ frame_most self.now }
    {
        match self {
            Frame::Infix { most, .. } | Frame::Prefix { most, .. } => *most,
            Frame::Brackets | Frame::Curly => GREATEST,
            Frame::Arguments { .. } | Frame::Elements(_) | Frame::Tail(_) => ARGUMENT,
        }
    }
}
