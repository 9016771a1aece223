ghost use Rattle.std.specs.Prelude.{◌≡◌};
ghost use Rattle.std.specs.Option.{option_map};
ghost use Rattle.term_meaning.specs.Operators.{infix_of, prefix_of, is_operator};
ghost use Rattle.aq_term.specs.OperatorRows.{infix_row, prefix_row, left_of, right_of, operand_of};

use crate::atom::Atom;

/// Whether the operands of an infix operator may have its own priority: at an `x` only lower ones, at a `y` its own too.
#[derive(Clone, Copy, Debug, PartialEq, Eq)]
pub enum InfixType {
    Xfx,
    Xfy,
    Yfx,
}

/// Whether the operand of a prefix operator may have its own priority: at an `x` only lower ones, at a `y` its own too.
#[derive(Clone, Copy, Debug, PartialEq, Eq)]
pub enum PrefixType {
    Fx,
    Fy,
}

/// An infix operator: the greater the priority, from 1 to 1200, the weaker it binds.
#[derive(Clone, Copy, Debug, PartialEq, Eq)]
pub struct Infix {
    pub priority: u16,
    pub kind: InfixType,
}

/// A prefix operator: the greater the priority, from 1 to 1200, the weaker it binds.
#[derive(Clone, Copy, Debug, PartialEq, Eq)]
pub struct Prefix {
    pub priority: u16,
    pub kind: PrefixType,
}

impl Infix {
    /// The infix operator of this name, if it is one.
    pub fn of(name: Atom) -> Option<Infix>
        ensures { option_map infix_row result ≡ infix_of name.number }
    {
        let (priority, kind) = match name {
            Atom::IF | Atom::ARROW => (1200, InfixType::Xfx),
            Atom::SEMICOLON => (1100, InfixType::Xfy),
            Atom::THEN => (1050, InfixType::Xfy),
            Atom::COMMA => (1000, InfixType::Xfy),
            Atom::UNIFIES
            | Atom::NOT_UNIFIES
            | Atom::IDENTICAL
            | Atom::NOT_IDENTICAL
            | Atom::TERM_LESS
            | Atom::TERM_AT_MOST
            | Atom::TERM_GREATER
            | Atom::TERM_AT_LEAST
            | Atom::UNIV
            | Atom::IS
            | Atom::NUMBER_EQUAL
            | Atom::NUMBER_NOT_EQUAL
            | Atom::LESS
            | Atom::AT_MOST
            | Atom::GREATER
            | Atom::AT_LEAST => (700, InfixType::Xfx),
            Atom::PLUS | Atom::MINUS | Atom::BIT_AND | Atom::BIT_OR => (500, InfixType::Yfx),
            Atom::TIMES
            | Atom::SLASH
            | Atom::QUOTIENT
            | Atom::REM
            | Atom::MOD
            | Atom::SHIFT_LEFT
            | Atom::SHIFT_RIGHT => (400, InfixType::Yfx),
            Atom::POWER => (200, InfixType::Xfx),
            Atom::CARET => (200, InfixType::Xfy),
            _ => return None,
        };
        Some(Infix { priority, kind })
    }

    /// The greatest priority of its left operand.
    pub fn left_most(self) -> u16
        ensures { result ≡ left_of self.priority self.kind }
    {
        match self.kind {
            InfixType::Yfx => self.priority,
            InfixType::Xfx | InfixType::Xfy => self.priority.saturating_sub(1),
        }
    }

    /// The greatest priority of its right operand.
    pub fn right_most(self) -> u16
        ensures { result ≡ right_of self.priority self.kind }
    {
        match self.kind {
            InfixType::Xfy => self.priority,
            InfixType::Xfx | InfixType::Yfx => self.priority.saturating_sub(1),
        }
    }
}

impl Prefix {
    /// The prefix operator of this name, if it is one.
    pub fn of(name: Atom) -> Option<Prefix>
        ensures { option_map prefix_row result ≡ prefix_of name.number }
    {
        let (priority, kind) = match name {
            Atom::IF | Atom::QUERY => (1200, PrefixType::Fx),
            Atom::NOT_PROVABLE => (900, PrefixType::Fy),
            Atom::MINUS | Atom::COMPLEMENT => (200, PrefixType::Fy),
            _ => return None,
        };
        Some(Prefix { priority, kind })
    }

    /// The greatest priority of its operand.
    pub fn operand_most(self) -> u16
        ensures { result ≡ operand_of self.priority self.kind }
    {
        match self.kind {
            PrefixType::Fy => self.priority,
            PrefixType::Fx => self.priority.saturating_sub(1),
        }
    }
}

/// Whether a name is an operator, of whatever kind.
pub fn is_operator(name: Atom) -> bool
    ensures { result ≡ is_operator name.number }
{
    Infix::of(name).is_some() || Prefix::of(name).is_some()
}
