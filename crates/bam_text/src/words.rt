ghost use Rattle.std.specs.Prelude.{◌≡◌};
ghost use Rattle.bam_text.specs.Words as words;

use aq_term::builtin::Builtin;
use aq_term::mode::Mode;
use bam_code::arg_type::ArgType;
use bam_code::arith_op::ArithOp;
use bam_code::comparison::Comparison;
use bam_code::hole_type::HoleType;
use bam_code::known::Known;
use bam_code::result_type::ResultType;
use bam_code::sameness::Sameness;

/// Whether code has an instruction for a built-in. Unification, comparisons of numbers and tests of identity have
/// instructions of their own.
pub fn is_code_builtin(builtin: Builtin) -> bool {
    !matches!(
        builtin,
        Builtin::Unify
            | Builtin::NotUnify
            | Builtin::Identical
            | Builtin::NotIdentical
            | Builtin::Is
            | Builtin::NumberEqual
            | Builtin::NumberNotEqual
            | Builtin::Less
            | Builtin::AtMost
            | Builtin::Greater
            | Builtin::AtLeast
    )
}

pub fn mode_of(word: &[u8]) -> Option<Mode> {
    match word {
        b"ground" => Some(Mode::Ground),
        b"nonvar" => Some(Mode::Nonvar),
        b"out" => Some(Mode::Out),
        b"any" => Some(Mode::Any),
        _ => None,
    }
}

pub fn mode_word(mode: Mode) -> &'static str
    ensures { result.now ≡ words.mode_word mode }
{
    match mode {
        Mode::Ground => "ground",
        Mode::Nonvar => "nonvar",
        Mode::Out => "out",
        Mode::Any => "any",
    }
}

pub fn arg_type_of(word: &[u8]) -> Option<ArgType> {
    match word {
        b"full" => Some(ArgType::Full),
        b"gdirect" => Some(ArgType::GroundDirect),
        b"ground" => Some(ArgType::Ground),
        b"direct" => Some(ArgType::Direct),
        b"nonvar" => Some(ArgType::Nonvar),
        b"any" => Some(ArgType::Any),
        b"out" => Some(ArgType::Out),
        b"bar" => Some(ArgType::Bar),
        _ => None,
    }
}

pub fn arg_type_word(arg: ArgType) -> &'static str
    ensures { result.now ≡ words.arg_type_word arg }
{
    match arg {
        ArgType::Full => "full",
        ArgType::GroundDirect => "gdirect",
        ArgType::Ground => "ground",
        ArgType::Direct => "direct",
        ArgType::Nonvar => "nonvar",
        ArgType::Any => "any",
        ArgType::Out => "out",
        ArgType::Bar => "bar",
    }
}

pub fn result_type_of(word: &[u8]) -> Option<ResultType> {
    match word {
        b"full" => Some(ResultType::Full),
        b"gdirect" => Some(ResultType::GroundDirect),
        b"ground" => Some(ResultType::Ground),
        b"direct" => Some(ResultType::Direct),
        b"nonvar" => Some(ResultType::Nonvar),
        b"any" => Some(ResultType::Any),
        b"bar" => Some(ResultType::Bar),
        _ => None,
    }
}

pub fn result_type_word(result_type: ResultType) -> &'static str
    ensures { result.now ≡ words.result_type_word result_type }
{
    match result_type {
        ResultType::Full => "full",
        ResultType::GroundDirect => "gdirect",
        ResultType::Ground => "ground",
        ResultType::Direct => "direct",
        ResultType::Nonvar => "nonvar",
        ResultType::Any => "any",
        ResultType::Bar => "bar",
    }
}

pub fn hole_type_of(word: &[u8]) -> Option<HoleType> {
    match word {
        b"full" => Some(HoleType::Full),
        b"gdirect" => Some(HoleType::GroundDirect),
        b"ground" => Some(HoleType::Ground),
        b"direct" => Some(HoleType::Direct),
        b"nonvar" => Some(HoleType::Nonvar),
        b"any" => Some(HoleType::Any),
        _ => None,
    }
}

pub fn hole_type_word(hole_type: HoleType) -> &'static str
    ensures { result.now ≡ words.hole_type_word hole_type }
{
    match hole_type {
        HoleType::Full => "full",
        HoleType::GroundDirect => "gdirect",
        HoleType::Ground => "ground",
        HoleType::Direct => "direct",
        HoleType::Nonvar => "nonvar",
        HoleType::Any => "any",
    }
}

pub fn known_of(word: &[u8]) -> Option<Known> {
    match word {
        b"any" => Some(Known::Any),
        b"nonvar" => Some(Known::Nonvar),
        b"ground" => Some(Known::Ground),
        _ => None,
    }
}

pub fn known_word(known: Known) -> &'static str
    ensures { result.now ≡ words.known_word known }
{
    match known {
        Known::Any => "any",
        Known::Nonvar => "nonvar",
        Known::Ground => "ground",
    }
}

pub fn arith_op_of(word: &[u8]) -> Option<ArithOp> {
    match word {
        b"add" => Some(ArithOp::Add),
        b"sub" => Some(ArithOp::Subtract),
        b"mul" => Some(ArithOp::Multiply),
        b"quot" => Some(ArithOp::Quotient),
        b"rem" => Some(ArithOp::Remainder),
        b"mod" => Some(ArithOp::Modulo),
        b"shl" => Some(ArithOp::ShiftLeft),
        b"shr" => Some(ArithOp::ShiftRight),
        b"and" => Some(ArithOp::And),
        b"or" => Some(ArithOp::Or),
        _ => None,
    }
}

pub fn arith_op_word(operation: ArithOp) -> &'static str
    ensures { result.now ≡ words.arith_op_word operation }
{
    match operation {
        ArithOp::Add => "add",
        ArithOp::Subtract => "sub",
        ArithOp::Multiply => "mul",
        ArithOp::Quotient => "quot",
        ArithOp::Remainder => "rem",
        ArithOp::Modulo => "mod",
        ArithOp::ShiftLeft => "shl",
        ArithOp::ShiftRight => "shr",
        ArithOp::And => "and",
        ArithOp::Or => "or",
    }
}

pub fn comparison_of(word: &[u8]) -> Option<Comparison> {
    match word {
        b"lt" => Some(Comparison::Less),
        b"le" => Some(Comparison::AtMost),
        b"gt" => Some(Comparison::Greater),
        b"ge" => Some(Comparison::AtLeast),
        b"eq" => Some(Comparison::Equal),
        b"ne" => Some(Comparison::NotEqual),
        _ => None,
    }
}

pub fn comparison_word(comparison: Comparison) -> &'static str
    ensures { result.now ≡ words.comparison_word comparison }
{
    match comparison {
        Comparison::Less => "lt",
        Comparison::AtMost => "le",
        Comparison::Greater => "gt",
        Comparison::AtLeast => "ge",
        Comparison::Equal => "eq",
        Comparison::NotEqual => "ne",
    }
}

pub fn sameness_of(word: &[u8]) -> Option<Sameness> {
    match word {
        b"eq" => Some(Sameness::Same),
        b"ne" => Some(Sameness::Different),
        _ => None,
    }
}

pub fn sameness_word(sameness: Sameness) -> &'static str
    ensures { result.now ≡ words.sameness_word sameness }
{
    match sameness {
        Sameness::Same => "eq",
        Sameness::Different => "ne",
    }
}
