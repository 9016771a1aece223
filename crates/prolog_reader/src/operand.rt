ghost use Rattle.std.specs.Prelude.{◌≡◌};

use crate::built::Built;
use aq_term::term::Term;

/// A term that an operator may take, with its priority.
#[derive(Debug, Drop)]
pub struct Operand {
    pub built: Built,
    pub priority: u16,
}

impl Operand {
    ghost use Rattle.prolog_reader.specs.Terms.{simple};
    ghost use Rattle.prolog_reader.specs.Machine.{closed};

    /// A term that is whole by itself.
    pub fn closed(built: Built) -> Operand
        ensures { result ≡ closed built }
    {
        Operand { built, priority: 0 }
    }

    pub fn simple(term: Term) -> Operand
        ensures { result ≡ closed (simple term) }
    {
        Operand::closed(Built::simple(term))
    }
}
