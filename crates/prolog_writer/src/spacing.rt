ghost use Rattle.std.specs.Prelude.{◌≡◌};
ghost use Rattle.term_text.specs.Written.{Setting, between};
ghost use Rattle.prolog_writer.specs.SpacingOf.{spaced_by};

use aq_term::atom::Atom;

/// What stands on both sides of an infix operator's name.
#[derive(Clone, Copy, Debug, PartialEq, Eq)]
pub enum Spacing {
    /// Nothing.
    Tight,
    /// A space.
    Spaced,
    /// A space where the neighbouring byte is a symbol character.
    Apart,
}

impl Spacing {
    /// The spacing of an infix operator of this priority: none round a comma, a space on both sides of `rem`, `mod` and all of
    /// priority 700 and more, and else where a symbol character stands beside it.
    pub fn of(name: Atom, priority: u16) -> Spacing
        ensures { (setting : Setting) → spaced_by setting name.number result ≡ between setting name.number priority }
    {
        match name {
            Atom::COMMA => Spacing::Tight,
            Atom::REM | Atom::MOD => Spacing::Spaced,
            _ if priority >= 700 => Spacing::Spaced,
            _ => Spacing::Apart,
        }
    }
}
