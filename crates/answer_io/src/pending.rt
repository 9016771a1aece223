use tag_word::tag::Tag;
use tag_word::word::Word;

/// A closing bracket.
#[derive(Clone, Copy, Debug, PartialEq, Eq)]
pub enum Closing {
    Round,
    Square,
    Curly,
}

impl Closing {
    pub fn byte(self) -> u8 {
        match self {
            Closing::Round => b')',
            Closing::Square => b']',
            Closing::Curly => b'}',
        }
    }

    fn number(self) -> u64 {
        match self {
            Closing::Round => 0,
            Closing::Square => 1,
            Closing::Curly => 2,
        }
    }

    fn of_number(number: u64) -> Closing {
        match number {
            0 => Closing::Round,
            1 => Closing::Square,
            _ => Closing::Curly,
        }
    }
}

/// Whether an operator and its operands stand in round brackets.
#[derive(Clone, Copy, Debug, PartialEq, Eq)]
pub enum Brackets {
    Without,
    Within,
}

impl Brackets {
    /// What is written behind the operands.
    pub fn closing(self) -> Option<Pending> {
        match self {
            Brackets::Without => None,
            Brackets::Within => Some(Pending::Close(Closing::Round)),
        }
    }

    fn number(self) -> u64 {
        match self {
            Brackets::Without => 0,
            Brackets::Within => 1,
        }
    }

    fn of_number(number: u64) -> Brackets {
        match number {
            0 => Brackets::Without,
            _ => Brackets::Within,
        }
    }
}

/// What is written when the node that is being written is done. Two words hold it: the tag of the first tells its kind.
#[derive(Clone, Copy, Debug, PartialEq, Eq)]
pub enum Pending {
    /// A closing bracket.
    Close(Closing),
    /// What stands behind an element of a list: the heap index of the tail's cell.
    Tail { cell: u64 },
    /// An infix operator and its right operand: the heap index of the functor's cell.
    Right { at: u64, brackets: Brackets },
    /// The arguments that follow: the heap index of the next one's cell, and how many there are.
    Arguments { next: u64, count: u64 },
}

impl Pending {
    /// The two words that hold it.
    pub fn words(self) -> (Word, Word) {
        match self {
            Pending::Close(closing) => (Word::of(Tag::Bar, closing.number()), number_word(0)),
            Pending::Tail { cell } => (Word::of(Tag::Lst, cell), number_word(0)),
            Pending::Right { at, brackets } => {
                (Word::of(Tag::Str, at), number_word(brackets.number()))
            }
            Pending::Arguments { next, count } => (Word::of(Tag::Ref, next), number_word(count)),
        }
    }

    /// What these two words hold.
    pub fn of_words(first: Word, second: Word) -> Option<Pending> {
        let value = first.value();
        let number = second.value();
        match first.tag() {
            Tag::Bar => Some(Pending::Close(Closing::of_number(value))),
            Tag::Lst => Some(Pending::Tail { cell: value }),
            Tag::Str => Some(Pending::Right {
                at: value,
                brackets: Brackets::of_number(number),
            }),
            Tag::Ref => Some(Pending::Arguments {
                next: value,
                count: number,
            }),
            _ => None,
        }
    }
}

fn number_word(number: u64) -> Word {
    Word::of(Tag::Bar, number)
}
