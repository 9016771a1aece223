ghost use Rattle.std.specs.Prelude.{◌≡◌, option_copied};
ghost use Rattle.bam_types.specs.LineRules.{keeps_result, says_all, says_from, says, known_after, said_from, said_at};
ghost use Rattle.bam_types.specs.CallRule.{passed_identity};
ghost use Rattle.bam_types.specs.HoleRule.{is_that};
ghost use Rattle.bam_types.specs.Scopes.{within_of};
ghost use Rattle.bam_code.specs.declared.known.Known.TheVariants as knowledge;

use crate::argument::Argument;
use crate::call_rule::{passed_identity, result_of};
use crate::declared::result_known;
use crate::knowledge::{both_known, follows};
use crate::scope::Scope;
use crate::state::State;
use bam_code::known::Known;
use bam_code::line::Line;
use bam_code::result_type::ResultType;
use bam_code::signature::Signature;

/// The rule of results: at the end of a procedure, by `return` or by what the callee of an `exec` says, as much is known of each
/// argument as the procedure says.
pub fn keeps_result(scope: &Scope, state: &State, line: &Line) -> bool
    ensures { result ≡ keeps_result (within_of scope.now) state.now line.now }
{
    match line {
        Line::Return => says_all(scope, state, None),
        Line::Exec(name) => says_all(scope, state, scope.callee(name)),
        _ => true,
    }
}

/// Whether as much is known of each argument as the procedure says, with what a callee says.
fn says_all(scope: &Scope, state: &State, callee: Option<&Signature>) -> bool
    ensures { result ≡ says_all (within_of scope.now) state.now (option_copied callee.entry) }
{
    says_in_order(
        state,
        callee,
        scope.signature.results.as_slice(),
        state.arguments.as_slice(),
    )
}

fn says_in_order(
    state: &State,
    callee: Option<&Signature>,
    results: &[ResultType],
    arguments: &[Argument],
) -> bool
    ensures { result ≡ says_from state.now (option_copied callee.entry) results.now 0 arguments.now }
{
    for (number, argument) in arguments.iter().enumerate() {
        if !says(state, callee, *argument, result_of(results, number)) {
            return false;
        }
    }
    true
}

fn says(state: &State, callee: Option<&Signature>, argument: Argument, filled: ResultType) -> bool
    ensures { result ≡ says state.now (option_copied callee.entry) argument filled }
{
    match argument {
        Argument::Term(identity) => {
            follows(known_after(state, callee, identity), result_known(filled))
        }
        _ => true,
    }
}

/// What is known of an identity's term, with what a callee says.
fn known_after(state: &State, callee: Option<&Signature>, identity: u32) -> Known
    ensures { result ≡ known_after state.now (option_copied callee.entry) identity }
{
    let known = state.identities.known(identity);
    match callee {
        Some(signature) => both_known(known, said(state, signature.results.as_slice(), identity)),
        None => known,
    }
}

/// What the results of a callee say of an identity's term.
fn said(state: &State, results: &[ResultType], identity: u32) -> Known
    ensures { result ≡ said_from state.now 0 results.now identity knowledge.Any }
{
    let mut known = Known::Any;
    for (number, declared) in results.iter().enumerate() {
        known = said_at(state, number, *declared, identity, known);
    }
    known
}

/// What is known with what one result says.
fn said_at(state: &State, number: usize, declared: ResultType, identity: u32, known: Known) -> Known
    ensures { result ≡ said_at state.now number declared identity known }
{
    if is_passed_at(state, number, identity) {
        both_known(known, result_known(declared))
    } else {
        known
    }
}

fn is_passed_at(state: &State, number: usize, identity: u32) -> bool
    ensures { result ≡ is_that (passed_identity state.now number) identity }
{
    match passed_identity(state, number) {
        Some(passed) => passed == identity,
        None => false,
    }
}
