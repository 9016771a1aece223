use tag_word::word::Word;

/// Where a term stands in the text.
#[derive(Clone, Copy, Debug, PartialEq, Eq)]
pub enum Position {
    /// Where this is the greatest priority without brackets.
    Within(u16),
    /// As an operand of an operator, where this is the greatest priority without brackets and an operator alone has brackets too.
    Operand(u16),
    /// Behind an element of a list, as a further list cell or the end of the list.
    Tail,
}

/// A visit of a node that is due.
#[derive(Clone, Copy, Debug)]
pub struct Visit {
    pub word: Word,
    pub position: Position,
}
