use aq_term::functor::Functor;
use bam_code::word_type::WordType;
use type_lattice::fact::Fact;

/// What is so of every part of a term that is read.
#[derive(Clone, Copy, Debug, PartialEq, Eq)]
pub enum Parts {
    Full,
    Ground,
    Any,
}

impl Parts {
    /// Of the parts of a term of this fact.
    pub fn of(fact: Fact) -> Parts {
        match fact {
            Fact::Bot | Fact::Full => Parts::Full,
            Fact::GroundDirect | Fact::Ground => Parts::Ground,
            Fact::Out | Fact::Direct | Fact::Nonvar | Fact::Any => Parts::Any,
        }
    }

    /// The fact of a variable that is such a part.
    pub fn fact(self) -> Fact {
        match self {
            Parts::Full => Fact::Full,
            Parts::Ground => Fact::Ground,
            Parts::Any => Fact::Any,
        }
    }

    /// The type of a list cell with such parts.
    pub fn list_type(self) -> WordType {
        match self {
            Parts::Full => WordType::FullListCell,
            Parts::Ground => WordType::GroundListCell,
            Parts::Any => WordType::ListCell,
        }
    }

    /// The type of a structure with such parts.
    pub fn structure_type(self, functor: Functor) -> WordType {
        match self {
            Parts::Full => WordType::FullStructure(functor),
            Parts::Ground => WordType::GroundStructure(functor),
            Parts::Any => WordType::Structure(functor),
        }
    }
}

/// A register with a word that is tested and read.
#[derive(Clone, Copy, Debug)]
pub struct Base {
    pub register: u16,
    pub parts: Parts,
    /// The argument of the head whose term it is.
    pub mark: Option<u8>,
    /// The variable whose place learns what is learned of the word.
    pub learns: Option<u32>,
}

impl Base {
    /// A part of another word.
    pub fn part(self, register: u16) -> Base {
        Base {
            register,
            parts: self.parts,
            mark: None,
            learns: None,
        }
    }
}
