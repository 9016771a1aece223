//! The states at the start of a procedure and after a label.

ghost use Rattle.std.specs.Prelude.{◌≡◌, length, OnOk, IfOk};
ghost use Rattle.bam_types.specs.Enter.{
  start,
  start_from,
  start_argument,
  start_word,
  start_hole,
  set_at,
  term_argument,
  enter,
  number_arguments,
  number_argument,
  hold_all,
  hold,
  hold_place,
  hold_marked,
  is_first_hole,
  is_filled_result,
  is_hole,
  unfill,
  hold_ball,
};
ghost use Rattle.bam_types.specs.CallRule.{argument_place};
ghost use Rattle.bam_types.specs.Labels.{label_seen};
ghost use Rattle.bam_types.specs.Weakening.{held};

use crate::argument::Argument;
use crate::call_rule::{argument_place, result_of};
use crate::declared::{argument_word, result_word};
use crate::held::Held;
use crate::identity::Identity;
use crate::labels::LabelLine;
use crate::state::State;
use aq_term::memory::Memory;
use bam_code::arg_type::ArgType;
use bam_code::item::Item;
use bam_code::known::Known;
use bam_code::place::Place;
use bam_code::place_type::PlaceType;
use bam_code::result_type::ResultType;
use bam_code::signature::Signature;
use bam_code::word_type::WordType;

/// Takes the state to that at a procedure's start: no frame, the arguments in their registers, and for each result its hole.
pub fn start(state: &mut State, signature: &Signature) -> Result<(), Memory>
    ensures { OnOk result (state.new ≡ start signature.now) }
{
    state.clear();
    state.caught.clear();
    start_arguments(
        state,
        signature.args.as_slice(),
        signature.results.as_slice(),
    )
}

fn start_arguments(
    state: &mut State,
    args: &[ArgType],
    results: &[ResultType],
) -> Result<(), Memory>
    ensures { OnOk result (state.new ≡ start_from results.now 0 args.now state.old) }
{
    for (number, declared) in args.iter().enumerate() {
        start_argument(
            state,
            number,
            argument_word(*declared),
            result_of(results, number),
        )?;
    }
    Ok(())
}

fn start_argument(
    state: &mut State,
    number: usize,
    word: Option<WordType>,
    filled: ResultType,
) -> Result<(), Memory>
    ensures { OnOk result (state.new ≡ start_argument state.old number word filled) }
{
    match word {
        Some(word) => start_word(state, number, word),
        None => start_hole(state, number, result_word(filled)),
    }
}

fn start_word(state: &mut State, number: usize, word: WordType) -> Result<(), Memory>
    ensures { OnOk result (state.new ≡ start_word state.old number word) }
{
    let identity = state.identities.add(Identity::Term(Known::Any))?;
    state.arguments.push(term_argument(word, identity))?;
    place_argument(state, number, PlaceType::Word(word), identity)
}

fn term_argument(word: WordType, identity: u32) -> Argument
    ensures { result ≡ term_argument word identity }
{
    match word {
        WordType::Bar => Argument::Barrier,
        _ => Argument::Term(identity),
    }
}

fn start_hole(state: &mut State, number: usize, word: WordType) -> Result<(), Memory>
    ensures { OnOk result (state.new ≡ start_hole state.old number word) }
{
    let identity = state.identities.add(Identity::Own(number))?;
    state.arguments.push(Argument::Unfilled(identity))?;
    place_argument(state, number, PlaceType::Hole(word), identity)
}

fn place_argument(
    state: &mut State,
    number: usize,
    holds: PlaceType,
    identity: u32,
) -> Result<(), Memory>
    ensures { OnOk result (state.new ≡ set_at state.old (argument_place number) (held holds identity)) }
{
    match argument_place(number) {
        Some(place) => state.set(place, Held { holds, identity }),
        None => Ok(()),
    }
}

/// Takes the state to that after a label: the items hold, and nothing else is known. After the label of a ball the register of the
/// ball holds any term, where a `catch` before names the label.
pub fn enter(state: &mut State, signature: &Signature, label: LabelLine) -> Result<(), Memory>
    ensures { OnOk result (state.new ≡ enter signature.now (label_seen label.entry) state.old) }
{
    state.clear();
    state.frame = label.frame;
    number_arguments(state, signature.args.as_slice())?;
    hold_all(state, label.items)?;
    hold_ball(state, label)
}

/// Gives each argument an identity. A result counts as filled until an item holds its hole.
fn number_arguments(state: &mut State, args: &[ArgType]) -> Result<(), Memory>
    ensures { OnOk result (state.new ≡ number_arguments state.old args.now) }
{
    for declared in args {
        number_argument(state, *declared)?;
    }
    Ok(())
}

fn number_argument(state: &mut State, declared: ArgType) -> Result<(), Memory>
    ensures { OnOk result (state.new ≡ number_argument state.old declared) }
{
    let argument = match declared {
        ArgType::Out => Argument::Filled,
        ArgType::Bar => Argument::Barrier,
        _ => Argument::Term(state.identities.add(Identity::Term(Known::Any))?),
    };
    state.arguments.push(argument)
}

fn hold_all(state: &mut State, items: &[Item]) -> Result<(), Memory>
    ensures { OnOk result (state.new ≡ hold_all state.old items.now) }
{
    for item in items {
        hold(state, item)?;
    }
    Ok(())
}

fn hold(state: &mut State, item: &Item) -> Result<(), Memory>
    ensures { OnOk result (state.new ≡ hold state.old item.now) }
{
    match item {
        Item::Argument { argument, known } => {
            if let Some(identity) = state.identity_of(*argument as usize) {
                state.identities.learn(identity, *known);
            }
            Ok(())
        }
        Item::Place { place, holds, mark } => hold_place(state, *place, *holds, *mark),
    }
}

fn hold_place(
    state: &mut State,
    place: Place,
    holds: PlaceType,
    mark: Option<u8>,
) -> Result<(), Memory>
    ensures { OnOk result (state.new ≡ hold_place state.old place holds mark) }
{
    match mark {
        Some(mark) => hold_marked(state, place, holds, usize::from(mark)),
        None => state.set_new(place, holds),
    }
}

/// A place has the identity of the argument that marks it. The first place with a result's hole makes the hole unfilled.
fn hold_marked(
    state: &mut State,
    place: Place,
    holds: PlaceType,
    number: usize,
) -> Result<(), Memory>
    ensures { OnOk result (state.new ≡ hold_marked state.old place holds number) }
{
    if is_first_hole(state, number, holds) {
        let identity = unfill(state, number)?;
        state.set(place, Held { holds, identity })
    } else {
        match state.identity_of(number) {
            Some(identity) => state.set(place, Held { holds, identity }),
            None => state.set_new(place, holds),
        }
    }
}

fn is_first_hole(state: &State, number: usize, holds: PlaceType) -> bool
    ensures { result ≡ is_first_hole state.now number holds }
{
    is_filled_result(state.arguments.get(number)) && is_hole(holds)
}

fn is_filled_result(argument: Option<Argument>) -> bool
    ensures { result ≡ is_filled_result argument }
{
    matches!(argument, Some(Argument::Filled))
}

fn is_hole(holds: PlaceType) -> bool
    ensures { result ≡ is_hole holds }
{
    matches!(holds, PlaceType::Hole(_))
}

/// Notes that a result's hole is unfilled, and gives its identity.
fn unfill(state: &mut State, number: usize) -> Result<u32, Memory>
    ensures { IfOk result (λ identity. (identity ≡ length state.old.identities) × (state.new ≡ unfill state.old number)) }
{
    let identity = state.identities.add(Identity::Own(number))?;
    state.arguments.set(number, Argument::Unfilled(identity));
    Ok(identity)
}

/// In the register of a ball stands any term.
fn hold_ball(state: &mut State, label: LabelLine) -> Result<(), Memory>
    ensures { OnOk result (state.new ≡ hold_ball state.old (label_seen label.entry)) }
{
    if label.kind.is_ball() {
        match state.caught_at(label.number) {
            Some(register) => state.set_register(register, PlaceType::Word(WordType::Any)),
            None => Ok(()),
        }
    } else {
        Ok(())
    }
}
