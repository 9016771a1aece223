ghost use Rattle.std.specs.Prelude.{◌≡◌};
ghost use Rattle.tag_word.specs.Tag.{number_of};

/// What the value of a word is.
#[derive(Clone, Copy, Debug, PartialEq, Eq)]
pub enum Tag {
    /// The heap index of a cell.
    Ref,
    /// The number of an atom.
    Atm,
    /// The 64 bits of a signed integer.
    Int,
    /// The heap index of two cells, head and tail.
    Lst,
    /// The heap index of a functor's cell, which the arguments follow.
    Str,
    /// 256 times an atom's number, plus an arity.
    Fun,
    /// A number of choices.
    Bar,
    /// A place in the image.
    Cod,
    /// A frame's index in the environment area.
    Frm,
    /// An unfilled hole; its value is 0.
    Hol,
}

impl Tag {
    /// The tag's number in a word, 1 to 10.
    pub const fn number(self) -> u8
        ensures { result ≡ number_of self }
    {
        match self {
            Tag::Ref => 1,
            Tag::Atm => 2,
            Tag::Int => 3,
            Tag::Lst => 4,
            Tag::Str => 5,
            Tag::Fun => 6,
            Tag::Bar => 7,
            Tag::Cod => 8,
            Tag::Frm => 9,
            Tag::Hol => 10,
        }
    }
}
