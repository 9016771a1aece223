ghost use Rattle.std.specs.Prelude.{◌≡◌};
ghost use Rattle.bam_types.specs.DeclaredTypes.{argument_word, result_word, result_known, hole_word};

use crate::word_types::strip_word;
use bam_code::arg_type::ArgType;
use bam_code::hole_type::HoleType;
use bam_code::known::Known;
use bam_code::result_type::ResultType;
use bam_code::word_type::WordType;

/// The type of an argument's word, or none for a result.
pub fn argument_word(declared: ArgType) -> Option<WordType>
    ensures { result ≡ argument_word declared }
{
    match declared {
        ArgType::Full => Some(WordType::Full),
        ArgType::GroundDirect => Some(WordType::GroundDirect),
        ArgType::Ground => Some(WordType::Ground),
        ArgType::Direct => Some(WordType::Direct),
        ArgType::Nonvar => Some(WordType::Nonvar),
        ArgType::Any => Some(WordType::Any),
        ArgType::Out => None,
        ArgType::Bar => Some(WordType::Bar),
    }
}

/// The type of what a procedure fills into the hole of a result.
pub fn result_word(declared: ResultType) -> WordType
    ensures { result ≡ result_word declared }
{
    match declared {
        ResultType::Full => WordType::Full,
        ResultType::GroundDirect => WordType::GroundDirect,
        ResultType::Ground => WordType::Ground,
        ResultType::Direct => WordType::Direct,
        ResultType::Nonvar => WordType::Nonvar,
        ResultType::Any => WordType::Any,
        ResultType::Bar => WordType::Bar,
    }
}

/// What a procedure says at its return of the term of an argument that is no result.
pub fn result_known(declared: ResultType) -> Known
    ensures { result ≡ result_known declared }
{
    strip_word(result_word(declared))
}

/// The type of what is filled into a hole.
pub fn hole_word(declared: HoleType) -> WordType
    ensures { result ≡ hole_word declared }
{
    match declared {
        HoleType::Full => WordType::Full,
        HoleType::GroundDirect => WordType::GroundDirect,
        HoleType::Ground => WordType::Ground,
        HoleType::Direct => WordType::Direct,
        HoleType::Nonvar => WordType::Nonvar,
        HoleType::Any => WordType::Any,
    }
}
