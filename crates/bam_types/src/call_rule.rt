ghost use Rattle.std.specs.Prelude.{◌≡◌, Some, option_copied};
ghost use Rattle.bam_types.specs.CallRule.{
  called_name,
  callee_of,
  keeps_call,
  passes_all,
  passes_from,
  result_of,
  argument_place,
  passed,
  passes,
  passes_hole,
  is_result,
  passed_hole,
  passed_identity,
};
ghost use Rattle.bam_types.specs.Scopes.{within_of};

use crate::declared::{argument_word, result_word};
use crate::held::Held;
use crate::place_types::place_below;
use crate::scope::Scope;
use crate::state::State;
use crate::word_types::word_below;
use aq_term::proc_name::ProcName;
use bam_code::arg_type::ArgType;
use bam_code::line::Line;
use bam_code::place::Place;
use bam_code::place_type::PlaceType;
use bam_code::result_type::ResultType;
use bam_code::signature::Signature;

/// The name that a line calls.
pub fn called(line: &Line) -> Option<&ProcName>
    ensures { option_copied result ≡ called_name line.now }
{
    match line {
        Line::Call(name) | Line::Exec(name) => Some(name),
        _ => None,
    }
}

/// The signature of what a line calls.
pub fn callee<'a>(scope: &Scope<'a>, line: &Line) -> Option<&'a Signature>
    ensures { option_copied result ≡ callee_of (within_of scope.now) line.now }
{
    scope.callee(called(line)?)
}

/// The rule of calls: the callee is known, and each of its arguments stands in its register.
pub fn keeps_call(scope: &Scope, state: &State, line: &Line) -> bool
    ensures { result ≡ keeps_call (within_of scope.now) state.now line.now }
{
    match called(line) {
        Some(name) => match scope.callee(name) {
            Some(signature) => passes_all(state, signature),
            None => false,
        },
        None => true,
    }
}

fn passes_all(state: &State, signature: &Signature) -> bool
    ensures { result ≡ passes_all state.now (Some signature.now) }
{
    passes_in_order(
        state,
        signature.args.as_slice(),
        signature.results.as_slice(),
    )
}

/// Whether each argument stands in its register.
fn passes_in_order(state: &State, args: &[ArgType], results: &[ResultType]) -> bool
    ensures { result ≡ passes_from state.now results.now 0 args.now }
{
    for (number, declared) in args.iter().enumerate() {
        if !passes(state, number, *declared, result_of(results, number)) {
            return false;
        }
    }
    true
}

/// The result type of an argument. Where there is none it says nothing.
pub fn result_of(results: &[ResultType], argument: usize) -> ResultType
    ensures { result ≡ result_of results.now argument }
{
    match results.get(argument) {
        Some(declared) => *declared,
        None => ResultType::Any,
    }
}

/// The place in which an argument is passed.
pub fn argument_place(argument: usize) -> Option<Place>
    ensures { result ≡ argument_place argument }
{
    let number = u16::try_from(argument).ok()?;
    Some(Place::Register(number))
}

/// What the register of an argument holds.
fn passed(state: &State, argument: usize) -> Option<Held>
    ensures { result ≡ passed state.now argument }
{
    state.at(argument_place(argument)?)
}

/// Whether an argument of this declared type stands in its register: a result is an unfilled hole for at least what the callee
/// fills in.
fn passes(state: &State, number: usize, declared: ArgType, filled: ResultType) -> bool
    ensures { result ≡ passes state.now number declared filled }
{
    match passed(state, number) {
        Some(held) => match argument_word(declared) {
            Some(word) => place_below(held.holds, PlaceType::Word(word)),
            None => passes_hole(held.holds, filled),
        },
        None => false,
    }
}

/// Whether a place is an unfilled hole for at least what the callee fills in.
fn passes_hole(holds: PlaceType, filled: ResultType) -> bool
    ensures { result ≡ passes_hole holds filled }
{
    match holds {
        PlaceType::Hole(word) => word_below(result_word(filled), word),
        _ => false,
    }
}

/// Whether an argument of this declared type is a result.
pub fn is_result(declared: ArgType) -> bool
    ensures { result ≡ is_result declared }
{
    matches!(declared, ArgType::Out)
}

/// The identity of the hole that is passed at an argument of this declared type.
pub fn passed_hole(state: &State, number: usize, declared: ArgType) -> Option<u32>
    ensures { result ≡ passed_hole state.now number declared }
{
    if is_result(declared) {
        passed_identity(state, number)
    } else {
        None
    }
}

/// The identity of what the register of an argument holds.
pub fn passed_identity(state: &State, number: usize) -> Option<u32>
    ensures { result ≡ passed_identity state.now number }
{
    let held = state.kept(argument_place(number)?)?;
    Some(held.identity)
}
