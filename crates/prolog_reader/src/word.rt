ghost use Rattle.std.specs.Prelude.{◌≡◌};
ghost use Rattle.prolog_reader.specs.Words.{begins_term, infix_symbol};

use crate::symbol::Symbol;

/// A token as the grammar sees it. Codes are the words of the list that they stand for.
#[derive(Clone, Copy, Debug, PartialEq, Eq)]
pub enum Word {
    /// A name with no bracket directly after it.
    Name(Symbol),
    /// An unquoted `-` directly before an integer.
    Sign(Symbol),
    /// A name directly before `(`.
    Functor(Symbol),
    /// A variable by its number.
    Variable(u32),
    /// An integer of at most 9223372036854775808.
    Integer(u64),
    /// A greater integer.
    WideInteger,
    Open,
    Close,
    OpenList,
    CloseList,
    OpenCurly,
    CloseCurly,
    Comma(Symbol),
    Bar,
    End,
}

impl Word {
    /// Whether a term can begin with the word.
    pub fn begins_term(self) -> bool
        ensures { result ≡ begins_term self }
    {
        match self {
            Word::Name(symbol) => symbol.infix.is_none() || symbol.prefix.is_some(),
            Word::Sign(_) | Word::Functor(_) | Word::Variable(_) | Word::Integer(_) => true,
            Word::WideInteger | Word::Open | Word::OpenList | Word::OpenCurly => true,
            Word::Close | Word::CloseList | Word::CloseCurly => false,
            Word::Comma(_) | Word::Bar | Word::End => false,
        }
    }

    /// The name that may stand as an infix operator behind an operand.
    pub fn infix_symbol(self) -> Option<Symbol>
        ensures { result ≡ infix_symbol self }
    {
        match self {
            Word::Name(symbol) | Word::Functor(symbol) => Some(symbol),
            Word::Sign(symbol) | Word::Comma(symbol) => Some(symbol),
            Word::Variable(_) | Word::Integer(_) | Word::WideInteger | Word::End => None,
            Word::Open | Word::Close | Word::OpenList | Word::CloseList => None,
            Word::OpenCurly | Word::CloseCurly | Word::Bar => None,
        }
    }
}
