ghost use Rattle.std.specs.Prelude.{◌≡◌};
ghost use Rattle.term_text.specs.Pieces.{wants_space};
ghost use Rattle.prolog_writer.specs.GapOf.{gap_of};

use crate::spelling::is_symbol;

/// What stands before the byte that is written next.
#[derive(Clone, Copy, Debug, PartialEq, Eq)]
pub enum Gap {
    /// Nothing that asks for a space.
    Closed,
    /// An infix operator, which is kept apart from a symbol character.
    AfterInfix,
    /// A prefix operator, which is kept apart from a symbol character, a digit and an opening bracket.
    AfterPrefix,
}

impl Gap {
    /// Whether a space comes before the byte `next`.
    pub fn wants_space(self, next: u8) -> bool
        ensures { result ≡ wants_space (gap_of self) next }
    {
        match self {
            Gap::Closed => false,
            Gap::AfterInfix => is_symbol(next),
            Gap::AfterPrefix => is_symbol(next) || next.is_ascii_digit() || next == b'(',
        }
    }
}
