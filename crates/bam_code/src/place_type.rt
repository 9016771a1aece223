use crate::word_type::WordType;

/// What a register or a slot holds.
#[derive(Clone, Copy, Debug, PartialEq, Eq)]
pub enum PlaceType {
    /// A word of this type.
    Word(WordType),
    /// A reference to a hole, for what is of this type.
    Hole(WordType),
    /// A structure with an unfilled hole, which is of this type once no hole that was made is unfilled.
    Part(WordType),
    /// A reference to a cell whose hole was filled, with what is of this type.
    Cell(WordType),
}
