//! The rules in the order in which a line is tested. Each has one function.

ghost use Rattle.std.specs.Prelude.{◌≡◌, ◌≢◌, Some, None, IfOk};
ghost use Rattle.aq_term.specs.declared.rule.Rule.TheVariants as rule;
ghost use Rattle.bam_types.specs.Effects.{after};
ghost use Rattle.bam_types.specs.Rules.{broken, broken_by_operands, broken_by_effect};
ghost use Rattle.bam_types.specs.Scopes.{within_of};

use crate::after::after;
use crate::call_rule::keeps_call;
use crate::catch_rule::keeps_catch;
use crate::choice_rule::keeps_choice;
use crate::flow::{is_entered, keeps_flow};
use crate::hole_rule::keeps_hole;
use crate::open_rule::keeps_open;
use crate::places_rules::{keeps_cell, keeps_frame, keeps_index, keeps_set, keeps_slot, keeps_tag};
use crate::result_rule::keeps_result;
use crate::scope::Scope;
use crate::state::State;
use crate::state_rule::keeps_state;
use aq_term::memory::Memory;
use aq_term::rule::Rule;
use bam_code::line::Line;

/// The first rule that a line breaks in this state, if any.
#[tactic(auto, unfolding(crate::specs::Rules::broken))]
pub fn broken(scope: &Scope, state: &State, at: usize, line: &Line) -> Option<Rule>
    ensures named { result ≢ Some rule.Entry }
    ensures exact { result ≡ broken (within_of scope.now) state.now at line.now }
{
    match broken_by_operands(scope, state, at, line) {
        Some(rule) => Some(rule),
        None => broken_by_effect(scope, state, is_entered(scope.lines, at), line),
    }
}

#[tactic(auto, unfolding(crate::specs::Rules::broken_by_operands))]
fn broken_by_operands(scope: &Scope, state: &State, at: usize, line: &Line) -> Option<Rule>
    ensures named { result ≢ Some rule.Entry }
    ensures exact { result ≡ broken_by_operands (within_of scope.now) state.now at line.now }
{
    if !keeps_flow(scope, at, line) {
        Some(Rule::Flow)
    } else if !keeps_frame(state, line) {
        Some(Rule::Frame)
    } else if !keeps_set(scope, state, line) {
        Some(Rule::Unset)
    } else if !keeps_slot(state, line) {
        Some(Rule::Slot)
    } else if !keeps_index(state, line) {
        Some(Rule::Index)
    } else if !keeps_tag(scope, state, line) {
        Some(Rule::Tag)
    } else if !keeps_cell(state, line) {
        Some(Rule::Index)
    } else {
        None
    }
}

#[tactic(auto, unfolding(crate::specs::Rules::broken_by_effect))]
fn broken_by_effect(scope: &Scope, state: &State, entered: bool, line: &Line) -> Option<Rule>
    ensures named { result ≢ Some rule.Entry }
    ensures exact { result ≡ broken_by_effect (within_of scope.now) state.now entered line.now }
{
    if !keeps_open(state, line) {
        Some(Rule::Open)
    } else if !keeps_call(scope, state, line) {
        Some(Rule::Call)
    } else if !keeps_choice(scope, state, line) {
        Some(Rule::Choice)
    } else if !keeps_hole(scope, state, entered, line) {
        Some(Rule::Hole)
    } else if !keeps_result(scope, state, line) {
        Some(Rule::Result)
    } else if !keeps_state(scope, state, entered, line) {
        Some(Rule::State)
    } else if !keeps_catch(scope, state, line) {
        Some(Rule::Catch)
    } else {
        None
    }
}

/// The first rule that a line breaks, or none. Then the state is that after the line.
pub fn step(
    scope: &Scope,
    state: &mut State,
    at: usize,
    line: &Line,
) -> Result<Option<Rule>, Memory>
    ensures named { IfOk result (λ found. found ≢ Some rule.Entry) }
    ensures exact { IfOk result (λ found. found ≡ broken (within_of scope.now) state.old at line.now) }
    ensures goes_on { IfOk result (λ found. found ≡ None → state.new ≡ after (within_of scope.now) state.old line.now) }
{
    match broken(scope, state, at, line) {
        Some(rule) => Ok(Some(rule)),
        None => {
            after(state, scope, line)?;
            Ok(None)
        }
    }
}
