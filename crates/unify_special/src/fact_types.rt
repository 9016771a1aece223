ghost use Rattle.std.specs.Prelude.{◌≡◌};
ghost use Rattle.unify_special.specs.FactTypes.{filled_of, hole_of, known_of, word_of};

use bam_code::hole_type::HoleType;
use bam_code::known::Known;
use bam_code::result_type::ResultType;
use bam_code::word_type::WordType;
use type_lattice::fact::{Fact, strip};

/// The type of a word of which this is so.
pub fn word_type(fact: Fact) -> WordType
    ensures { result ≡ word_of fact }
{
    match fact {
        Fact::Bot | Fact::Full => WordType::Full,
        Fact::GroundDirect => WordType::GroundDirect,
        Fact::Ground => WordType::Ground,
        Fact::Direct => WordType::Direct,
        Fact::Nonvar => WordType::Nonvar,
        Fact::Out | Fact::Any => WordType::Any,
    }
}

/// What is filled into a hole for a term of which this is so.
pub fn hole_type(fact: Fact) -> HoleType
    ensures { result ≡ hole_of fact }
{
    match fact {
        Fact::Bot | Fact::Full => HoleType::Full,
        Fact::GroundDirect => HoleType::GroundDirect,
        Fact::Ground => HoleType::Ground,
        Fact::Direct => HoleType::Direct,
        Fact::Nonvar => HoleType::Nonvar,
        Fact::Out | Fact::Any => HoleType::Any,
    }
}

/// The type of what is filled into the hole of a result.
pub fn filled_type(filled: ResultType) -> WordType
    ensures { result ≡ filled_of filled }
{
    match filled {
        ResultType::Full => WordType::Full,
        ResultType::GroundDirect => WordType::GroundDirect,
        ResultType::Ground => WordType::Ground,
        ResultType::Direct => WordType::Direct,
        ResultType::Nonvar => WordType::Nonvar,
        ResultType::Any => WordType::Any,
        ResultType::Bar => WordType::Bar,
    }
}

/// What is known of the term where this is so.
pub fn known(fact: Fact) -> Known
    ensures { result ≡ known_of fact }
{
    match strip(fact) {
        Fact::Ground => Known::Ground,
        Fact::Nonvar => Known::Nonvar,
        _ => Known::Any,
    }
}
