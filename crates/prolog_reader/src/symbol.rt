ghost use Rattle.std.specs.Prelude.{◌≡◌};

use aq_term::atom::Atom;
use aq_term::operators::{Infix, Prefix};

/// The priority of an infix operator's term, and the greatest priorities of its operands.
#[derive(Clone, Copy, Debug, PartialEq, Eq)]
pub struct InfixLimits {
    pub priority: u16,
    pub left: u16,
    pub right: u16,
}

/// The priority of a prefix operator's term, and the greatest priority of its operand.
#[derive(Clone, Copy, Debug, PartialEq, Eq)]
pub struct PrefixLimits {
    pub priority: u16,
    pub operand: u16,
}

/// A name with the operators that it is.
#[derive(Clone, Copy, Debug, PartialEq, Eq)]
pub struct Symbol {
    pub name: Atom,
    pub infix: Option<InfixLimits>,
    pub prefix: Option<PrefixLimits>,
}

impl Symbol {
    pub fn of(name: Atom) -> Symbol
        ensures { result.name ≡ name }
    {
        Symbol {
            name,
            infix: Infix::of(name).map(|infix| InfixLimits {
                priority: infix.priority,
                left: infix.left_most(),
                right: infix.right_most(),
            }),
            prefix: Prefix::of(name).map(|prefix| PrefixLimits {
                priority: prefix.priority,
                operand: prefix.operand_most(),
            }),
        }
    }
}
