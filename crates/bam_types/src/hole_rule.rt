ghost use Rattle.std.specs.Prelude.{◌≡◌, drop};
ghost use Rattle.bam_types.specs.HoleRule.{
  keeps_hole,
  is_accepted_beside_holes,
  lists_here,
  lists_there,
  lists_at,
  lists_holes,
  lists_from,
  lists_argument,
  lists_hole,
  is_hole_of,
  is_marked_hole,
  keeps_passed,
  is_passed_from,
  is_passed_later,
  passes_once_from,
  is_made_by,
  made_passed_from,
  passes_made,
  passes_own,
  passes_own_hole,
  stands_apart,
};
ghost use Rattle.bam_types.specs.Labels.{label_of};
ghost use Rattle.bam_types.specs.Scopes.{within_of};

use crate::argument::Argument;
use crate::call_rule::passed_hole;
use crate::flow::of_reference;
use crate::labels::LabelLine;
use crate::scope::Scope;
use crate::state::State;
use bam_code::arg_type::ArgType;
use bam_code::item::Item;
use bam_code::line::Line;
use bam_code::place_type::PlaceType;
use bam_code::target::Target;

/// The rule of holes. While a hole that a line made is unfilled, few instructions are accepted. Where a line goes to a label, an
/// alternative included, each unfilled hole of a result is listed there. A call passes each unfilled hole that was made, and no
/// hole twice; an `exec` also leaves no hole of a result unfilled, nor does a `return`.
pub fn keeps_hole(scope: &Scope, state: &State, entered: bool, line: &Line) -> bool
    ensures { result ≡ keeps_hole (within_of scope.now) state.now entered line.now }
{
    ((state.made == 0 || is_accepted_beside_holes(line)) || stands_apart(entered, line))
        && (lists_here(state, entered, line) && lists_there(scope, state, line))
        && keeps_passed(scope, state, line)
}

/// Whether a line is a label that is not gone on to, to which what was unfilled before it is nothing.
fn stands_apart(entered: bool, line: &Line) -> bool
    ensures { result ≡ stands_apart entered (label_of line.now) }
{
    match LabelLine::of(line) {
        Some(_label) => !entered,
        None => false,
    }
}

fn is_accepted_beside_holes(line: &Line) -> bool
    ensures { result ≡ is_accepted_beside_holes line.now }
{
    matches!(
        line,
        Line::Move { .. }
            | Line::Structure { .. }
            | Line::ListCell { .. }
            | Line::Push(_)
            | Line::PushNew { .. }
            | Line::Fresh { .. }
            | Line::Hole { .. }
            | Line::Fill { .. }
            | Line::Deallocate
            | Line::Call(_)
            | Line::Exec(_)
    )
}

/// Whether the label that a line is lists each unfilled hole of a result, where the line is gone on to.
fn lists_here(state: &State, entered: bool, line: &Line) -> bool
    ensures { result ≡ lists_here state.now entered (label_of line.now) }
{
    match LabelLine::of(line) {
        Some(label) => !entered || lists_holes(state, label.items),
        None => true,
    }
}

/// Whether each label to which a line goes lists each unfilled hole of a result.
fn lists_there(scope: &Scope, state: &State, line: &Line) -> bool
    ensures { result ≡ lists_there (within_of scope.now) state.now line.now }
{
    match line {
        Line::Try { alternative, .. } => lists_at(scope, state, *alternative),
        Line::Retry(alternative) => lists_at(scope, state, *alternative),
        Line::Jump(target) => lists_at(scope, state, *target),
        Line::Match { other, .. } | Line::Functor { other, .. } => lists_at(scope, state, *other),
        Line::Switch {
            reference,
            atom,
            integer,
            list,
            structure,
            ..
        } => {
            lists_at(scope, state, of_reference(*reference))
                && lists_at(scope, state, *atom)
                && lists_at(scope, state, *integer)
                && lists_at(scope, state, *list)
                && lists_at(scope, state, *structure)
        }
        _ => true,
    }
}

fn lists_at(scope: &Scope, state: &State, target: Target) -> bool
    ensures { result ≡ lists_at (within_of scope.now) state.now target }
{
    match scope.target(target) {
        Some(label) => lists_holes(state, label.items),
        None => true,
    }
}

/// Whether items list each unfilled hole of a result. An item with another type than the hole's counts here.
fn lists_holes(state: &State, items: &[Item]) -> bool
    ensures { result ≡ lists_holes state.now items.now }
{
    lists_in_order(items, state.arguments.as_slice())
}

fn lists_in_order(items: &[Item], arguments: &[Argument]) -> bool
    ensures { result ≡ lists_from items.now 0 arguments.now }
{
    for (number, argument) in arguments.iter().enumerate() {
        if !lists_argument(items, number, *argument) {
            return false;
        }
    }
    true
}

fn lists_argument(items: &[Item], number: usize, argument: Argument) -> bool
    ensures { result ≡ lists_argument items.now number argument }
{
    match argument {
        Argument::Unfilled(_) => lists_hole(items, number),
        _ => true,
    }
}

fn lists_hole(items: &[Item], number: usize) -> bool
    ensures { result ≡ lists_hole items.now number }
{
    items.iter().any(|item| is_hole_of(number, item))
}

fn is_hole_of(number: usize, item: &Item) -> bool
    ensures { result ≡ is_hole_of number item.now }
{
    match item {
        Item::Place { holds, mark, .. } => is_marked_hole(*holds, *mark, number),
        Item::Argument { .. } => false,
    }
}

fn is_marked_hole(holds: PlaceType, mark: Option<u8>, number: usize) -> bool
    ensures { result ≡ is_marked_hole holds mark number }
{
    match holds {
        PlaceType::Hole(_) => match mark {
            Some(argument) => usize::from(argument) == number,
            None => false,
        },
        _ => false,
    }
}

/// Whether calls and returns leave no hole unfilled that they should not.
fn keeps_passed(scope: &Scope, state: &State, line: &Line) -> bool
    ensures { result ≡ keeps_passed (within_of scope.now) state.now line.now }
{
    match line {
        Line::Return => state.made == 0 && state.has_filled_all(),
        Line::Call(name) => match scope.callee(name) {
            Some(signature) => passes_made(state, signature.args.as_slice()),
            None => false,
        },
        Line::Exec(name) => match scope.callee(name) {
            Some(signature) => {
                passes_made(state, signature.args.as_slice())
                    && passes_own(state, signature.args.as_slice())
            }
            None => false,
        },
        _ => true,
    }
}

/// Whether a hole of this identity is passed at an argument from a number on.
fn is_passed_from(state: &State, args: &[ArgType], start: usize, identity: u32) -> bool
    ensures { result ≡ is_passed_from state.now start (drop start args.now) identity }
{
    for number in start..args.len() {
        if let Some(passed) = passed_hole(state, number, args[number]) {
            if passed == identity {
                return true;
            }
        }
    }
    false
}

/// Whether no hole is passed at two arguments.
fn passes_once(state: &State, args: &[ArgType]) -> bool
    ensures { result ≡ passes_once_from state.now 0 args.now }
{
    for (number, declared) in args.iter().enumerate() {
        if let Some(identity) = passed_hole(state, number, *declared) {
            if is_passed_from(state, args, number + 1, identity) {
                return false;
            }
        }
    }
    true
}

/// How many of the passed holes a line made.
fn made_passed(state: &State, args: &[ArgType]) -> usize
    ensures { result ≡ made_passed_from state.now 0 args.now }
{
    let mut count = 0;
    for (number, declared) in args.iter().enumerate() {
        if is_made_by(state, passed_hole(state, number, *declared)) {
            count += 1;
        }
    }
    count
}

fn is_made_by(state: &State, passed: Option<u32>) -> bool
    ensures { result ≡ is_made_by state.now passed }
{
    match passed {
        Some(identity) => state.is_made(identity),
        None => false,
    }
}

/// Whether each unfilled hole that a line made is passed, and no hole twice.
fn passes_made(state: &State, args: &[ArgType]) -> bool
    ensures { result ≡ passes_made state.now args.now }
{
    passes_once(state, args) && made_passed(state, args) == state.made as usize
}

/// Whether each unfilled hole of a result is passed.
fn passes_own(state: &State, args: &[ArgType]) -> bool
    ensures { result ≡ passes_own state.now args.now }
{
    state
        .arguments
        .as_slice()
        .iter()
        .all(|argument| passes_own_hole(state, args, *argument))
}

fn passes_own_hole(state: &State, args: &[ArgType], argument: Argument) -> bool
    ensures { result ≡ passes_own_hole state.now args.now argument }
{
    match argument {
        Argument::Unfilled(identity) => is_passed_from(state, args, 0, identity),
        _ => true,
    }
}
