ghost use Rattle.std.specs.Prelude.{◌≡◌};
ghost use Rattle.bam_types.specs.PlaceTypes.{
  known_word,
  same_word,
  place_below,
  strip_place,
  place_with,
  deref_place,
  weakened_place,
  whole,
};

use crate::word_types::{deref_word, strip_word, weakened, word_below, word_with};
use bam_code::known::Known;
use bam_code::place_type::PlaceType;
use bam_code::word_type::WordType;

/// The type of a word of which this alone is known.
pub fn known_word(known: Known) -> WordType
    ensures { result ≡ known_word known }
{
    match known {
        Known::Any => WordType::Any,
        Known::Nonvar => WordType::Nonvar,
        Known::Ground => WordType::Ground,
    }
}

/// Whether both types are one.
pub fn same_word(left: WordType, right: WordType) -> bool
    ensures { result ≡ same_word left right }
{
    word_below(left, right) && word_below(right, left)
}

/// Whether each place of the lower type is of the upper one. A cell whose hole was filled counts as what is known of the
/// term that was filled in.
pub fn place_below(lower: PlaceType, upper: PlaceType) -> bool
    ensures { result ≡ place_below lower upper }
{
    match (lower, upper) {
        (PlaceType::Word(lower), PlaceType::Word(upper)) => word_below(lower, upper),
        (PlaceType::Cell(lower), PlaceType::Word(upper)) => {
            word_below(known_word(strip_word(lower)), upper)
        }
        (PlaceType::Cell(lower), PlaceType::Cell(upper)) => same_word(lower, upper),
        (PlaceType::Hole(lower), PlaceType::Hole(upper)) => same_word(lower, upper),
        (PlaceType::Part(lower), PlaceType::Part(upper)) => same_word(lower, upper),
        _ => false,
    }
}

/// What a place's type says of the term that its word stands for. A hole stands for none yet.
pub fn strip_place(place: PlaceType) -> Known
    ensures { result ≡ strip_place place }
{
    match place {
        PlaceType::Word(word) | PlaceType::Cell(word) => strip_word(word),
        PlaceType::Hole(_) | PlaceType::Part(_) => Known::Any,
    }
}

/// The type of a place of whose term so much is known.
pub fn place_with(place: PlaceType, known: Known) -> PlaceType
    ensures { result ≡ place_with place known }
{
    match place {
        PlaceType::Word(word) => PlaceType::Word(word_with(word, known)),
        other => other,
    }
}

/// The type of a place's dereferenced word.
pub fn deref_place(place: PlaceType) -> PlaceType
    ensures { result ≡ deref_place place }
{
    match place {
        PlaceType::Word(word) | PlaceType::Cell(word) => PlaceType::Word(deref_word(word)),
        other => other,
    }
}

/// The type of a place after any cells were bound.
pub fn weakened_place(place: PlaceType) -> PlaceType
    ensures { result ≡ weakened_place place }
{
    match place {
        PlaceType::Word(word) => PlaceType::Word(weakened(word)),
        other => other,
    }
}

/// The type of a place once no hole that was made is unfilled.
pub fn whole(place: PlaceType) -> PlaceType
    ensures { result ≡ whole place }
{
    match place {
        PlaceType::Part(word) => PlaceType::Word(word),
        other => other,
    }
}
