ghost use Rattle.std.specs.Prelude.{◌≡◌};
ghost use Rattle.bam_types.specs.Effects.{
  structure_opening,
  list_opening,
  pushed_opening,
  made_type,
  opened_word,
};

use crate::word_types::{list_cell_type, structure_type};
use aq_term::functor::Functor;
use bam_code::place_type::PlaceType;
use bam_code::word_type::WordType;

/// A structure or a list cell whose pushes are due.
#[derive(Clone, Copy, Debug)]
pub struct Opening {
    /// The register that is set after the last push.
    pub register: u16,
    /// The functor of a structure, or none for a list cell.
    pub functor: Option<Functor>,
    /// How many pushes are due, at least 1.
    pub due: u8,
    /// Whether all that was pushed is ground.
    pub all_ground: bool,
    /// Whether all that was pushed is full.
    pub all_full: bool,
    /// Whether a hole or a structure with an unfilled hole was pushed.
    pub has_part: bool,
}

impl Opening {
    /// A structure with this functor that will be in this register.
    pub fn structure(register: u16, functor: Functor) -> Opening
        ensures { result ≡ structure_opening register functor }
    {
        Opening {
            register,
            functor: Some(functor),
            due: functor.arity,
            all_ground: true,
            all_full: true,
            has_part: false,
        }
    }

    /// A list cell that will be in this register.
    pub fn list_cell(register: u16) -> Opening
        ensures { result ≡ list_opening register }
    {
        Opening {
            register,
            functor: None,
            due: 2,
            all_ground: true,
            all_full: true,
            has_part: false,
        }
    }

    /// The opening after a push of a word of this type. A hole counts as what it is for.
    pub fn pushed(self, all_ground: bool, all_full: bool, has_part: bool) -> Opening
        ensures { result ≡ pushed_opening self all_ground all_full has_part }
    {
        Opening {
            due: self.due.saturating_sub(1),
            all_ground: self.all_ground && all_ground,
            all_full: self.all_full && all_full,
            has_part: self.has_part || has_part,
            ..self
        }
    }

    /// The type of the structure or list cell after the last push.
    pub fn made(&self) -> PlaceType
        ensures { result ≡ made_type self.now }
    {
        let word = self.word();
        if self.has_part {
            PlaceType::Part(word)
        } else {
            PlaceType::Word(word)
        }
    }

    fn word(&self) -> WordType
        ensures { result ≡ opened_word self.now.functor self.now.all_ground self.now.all_full }
    {
        match self.functor {
            Some(functor) => structure_type(functor, self.all_ground, self.all_full),
            None => list_cell_type(self.all_ground, self.all_full),
        }
    }
}
