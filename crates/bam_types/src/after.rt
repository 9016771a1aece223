//! The state after a line that keeps the rules.

ghost use Rattle.std.specs.Prelude.{◌≡◌, length, OnOk, option_copied};
ghost use Rattle.bam_types.specs.Effects.{
  after,
  enter_label,
  moved,
  put,
  dereferenced,
  loaded,
  cell_of,
  open_,
  pushed,
  push,
  open_further,
  is_pushed_ground,
  is_pushed_full,
  is_pushed_part,
  pushed_new,
  fresh,
  made_equal,
  constant_word,
  retype,
  matched_functor,
  functor_type,
  called,
  allocated,
  deallocated,
  uncaught,
  answered,
  fill_hole,
  fill_passed_from,
  learn_said,
  learn_result,
  learn_results_from,
  evaluated,
  taught,
  learn_taught_from,
  done,
  holed,
  filled,
  caught_by,
};
ghost use Rattle.bam_types.specs.Enter.{learn_of};
ghost use Rattle.bam_types.specs.Labels.{label_of};
ghost use Rattle.bam_types.specs.Operands.{operand};
ghost use Rattle.bam_types.specs.Scopes.{within_of};
ghost use Rattle.bam_types.specs.States.{register as register_of};

use crate::call_rule::{is_result, passed_hole, passed_identity};
use crate::declared::{hole_word, result_known};
use crate::enter::enter;
use crate::held::Held;
use crate::identity::Identity;
use crate::labels::{LabelLine, Labels};
use crate::opening::Opening;
use crate::operand::Operand;
use crate::place_types::{deref_place, place_below};
use crate::scope::Scope;
use crate::state::State;
use crate::word_types::{is_full, is_ground, list_cell_type, structure_type};
use aq_term::builtin::Builtin;
use aq_term::functor::Functor;
use aq_term::memory::Memory;
use bam_code::arg_type::ArgType;
use bam_code::constant::Constant;
use bam_code::hole_type::HoleType;
use bam_code::known::Known;
use bam_code::line::Line;
use bam_code::place::Place;
use bam_code::place_type::PlaceType;
use bam_code::result_type::ResultType;
use bam_code::signature::Signature;
use bam_code::source::Source;
use bam_code::target::Target;
use bam_code::word_type::WordType;

/// Takes the state to the one after a line that keeps the rules.
pub fn after(state: &mut State, scope: &Scope, line: &Line) -> Result<(), Memory>
    ensures { OnOk result (state.new ≡ after (within_of scope.now) state.old line.now) }
{
    match line {
        Line::Label { .. } | Line::Alt { .. } | Line::Ball { .. } => enter_line(state, scope, line),
        Line::Move { into, from } => moved(state, scope, *into, *from),
        Line::Deref { register, from } => dereferenced(state, scope, *register, *from),
        Line::Load { register, from, .. } => loaded(state, scope, *register, *from),
        Line::Structure { register, functor } => {
            open(state, Opening::structure(*register, *functor))
        }
        Line::ListCell { register } => open(state, Opening::list_cell(*register)),
        Line::Push(from) => pushed(state, scope, *from),
        Line::PushNew { register } => pushed_new(state, *register),
        Line::Fresh { register } => fresh(state, *register),
        Line::Bind { register, with } | Line::Unify { register, with } => {
            made_equal(state, scope, Source::Register(*register), *with)
        }
        Line::Match {
            register,
            constant,
            ..
        } => matched(state, *register, *constant),
        Line::Functor {
            register,
            functor,
            ..
        } => matched_functor(state, *register, *functor),
        Line::Call(name) => called(state, scope.callee(name)),
        Line::Allocate(size) => allocated(state, *size),
        Line::Deallocate => deallocated(state),
        Line::Mark { register } => state.set_register(*register, PlaceType::Word(WordType::Bar)),
        Line::Arith { register, .. } => {
            state.set_register(*register, PlaceType::Word(WordType::Int))
        }
        Line::Eval {
            register,
            expression,
        } => evaluated(state, scope, *register, *expression),
        Line::Builtin(builtin) => done(state, *builtin),
        Line::Hole { register, holds } => holed(state, *register, *holds),
        Line::Fill { register, .. } => filled(state, *register),
        Line::Catch { registers, ball } => catching(state, scope.labels, *registers, *ball),
        Line::Uncatch => uncaught(state),
        Line::Jump(_)
        | Line::Switch { .. }
        | Line::Fail
        | Line::Exec(_)
        | Line::Return
        | Line::Try { .. }
        | Line::Retry(_)
        | Line::Trust
        | Line::Cut(_)
        | Line::Less { .. }
        | Line::Same { .. }
        | Line::Raise(_) => Ok(()),
    }
}

fn enter_line(state: &mut State, scope: &Scope, line: &Line) -> Result<(), Memory>
    ensures { OnOk result (state.new ≡ enter_label scope.now.signature.now state.old (label_of line.now)) }
{
    match LabelLine::of(line) {
        Some(label) => enter(state, scope.signature, label),
        None => Ok(()),
    }
}

/// The place keeps the type and the identity of what it got.
fn moved(state: &mut State, scope: &Scope, into: Place, from: Source) -> Result<(), Memory>
    ensures { OnOk result (state.new ≡ moved state.old into (operand state.old scope.now.code.now.pool from)) }
{
    match Operand::of(state, scope.code, from) {
        Some(operand) => set(state, into, operand.holds, operand.identity),
        None => Ok(()),
    }
}

/// Sets a place to a word with this identity, or with a new one where the word is a constant's.
fn set(
    state: &mut State,
    into: Place,
    holds: PlaceType,
    identity: Option<u32>,
) -> Result<(), Memory>
    ensures { OnOk result (state.new ≡ put state.old into holds identity) }
{
    match identity {
        Some(identity) => state.set(into, Held { holds, identity }),
        None => state.set_new(into, holds),
    }
}

/// The register keeps the identity of what was dereferenced.
fn dereferenced(state: &mut State, scope: &Scope, register: u16, from: Source) -> Result<(), Memory>
    ensures { OnOk result (state.new ≡ dereferenced state.old register (operand state.old scope.now.code.now.pool from)) }
{
    match Operand::of(state, scope.code, from) {
        Some(operand) => set(
            state,
            Place::Register(register),
            deref_place(operand.holds),
            operand.identity,
        ),
        None => Ok(()),
    }
}

fn loaded(state: &mut State, scope: &Scope, register: u16, from: Source) -> Result<(), Memory>
    ensures { OnOk result (state.new ≡ loaded state.old register (operand state.old scope.now.code.now.pool from)) }
{
    match Operand::of(state, scope.code, from) {
        Some(operand) => state.set_register(register, PlaceType::Word(cell_of(operand.holds))),
        None => Ok(()),
    }
}

/// The type of a cell of a list cell or a structure.
fn cell_of(holds: PlaceType) -> WordType
    ensures { result ≡ cell_of holds }
{
    match holds {
        PlaceType::Word(word) => {
            if is_full(word) {
                WordType::Full
            } else if is_ground(word) {
                WordType::Ground
            } else {
                WordType::Any
            }
        }
        _ => WordType::Any,
    }
}

/// The structure's register is unset until the last push.
fn open(state: &mut State, opening: Opening) -> Result<(), Memory>
    ensures { OnOk result (state.new ≡ open_ state.old opening) }
{
    state.registers.unset(opening.register);
    state.opening = Some(opening);
    Ok(())
}

fn pushed(state: &mut State, scope: &Scope, from: Source) -> Result<(), Memory>
    ensures { OnOk result (state.new ≡ pushed state.old (operand state.old scope.now.code.now.pool from)) }
{
    match Operand::of(state, scope.code, from) {
        Some(operand) => push(state, operand.holds),
        None => Ok(()),
    }
}

/// Counts a push of a word of this type, and sets the structure's register after the last one.
fn push(state: &mut State, holds: PlaceType) -> Result<(), Memory>
    ensures { OnOk result (state.new ≡ push state.old holds) }
{
    match state.opening {
        Some(opening) => open_further(
            state,
            opening.pushed(
                is_pushed_ground(holds),
                is_pushed_full(holds),
                is_pushed_part(holds),
            ),
        ),
        None => Ok(()),
    }
}

/// The structure is made, or further pushes are due.
fn open_further(state: &mut State, opening: Opening) -> Result<(), Memory>
    ensures { OnOk result (state.new ≡ open_further state.old opening) }
{
    if opening.due == 0 {
        state.opening = None;
        state.set_register(opening.register, opening.made())
    } else {
        state.opening = Some(opening);
        Ok(())
    }
}

/// Whether what is pushed is a hole, or a structure with an unfilled hole.
fn is_pushed_part(holds: PlaceType) -> bool
    ensures { result ≡ is_pushed_part holds }
{
    matches!(holds, PlaceType::Part(_) | PlaceType::Hole(_))
}

/// Whether what is pushed is ground. A hole counts as what it is for, and a structure with a hole as what it will be.
fn is_pushed_ground(holds: PlaceType) -> bool
    ensures { result ≡ is_pushed_ground holds }
{
    match holds {
        PlaceType::Part(word) | PlaceType::Hole(word) => is_ground(word),
        _ => place_below(holds, PlaceType::Word(WordType::Ground)),
    }
}

/// Whether what is pushed is full, counted in the same way.
fn is_pushed_full(holds: PlaceType) -> bool
    ensures { result ≡ is_pushed_full holds }
{
    match holds {
        PlaceType::Part(word) | PlaceType::Hole(word) => is_full(word),
        _ => place_below(holds, PlaceType::Word(WordType::Full)),
    }
}

fn pushed_new(state: &mut State, register: u16) -> Result<(), Memory>
    ensures { OnOk result (state.new ≡ pushed_new state.old register) }
{
    fresh(state, register)?;
    push(state, PlaceType::Word(WordType::Var))
}

fn fresh(state: &mut State, register: u16) -> Result<(), Memory>
    ensures { OnOk result (state.new ≡ fresh state.old register) }
{
    state.set_register(register, PlaceType::Word(WordType::Var))
}

/// Each of two words is known as the other.
fn made_equal(state: &mut State, scope: &Scope, left: Source, right: Source) -> Result<(), Memory>
    ensures { OnOk result (state.new ≡ made_equal state.old (operand state.old scope.now.code.now.pool left) (operand state.old scope.now.code.now.pool right)) }
{
    let left = Operand::of(state, scope.code, left);
    let right = Operand::of(state, scope.code, right);
    state.weaken();
    if let Some(left) = left {
        if let Some(right) = right {
            learn(state, left.identity, right.known);
            learn(state, right.identity, left.known);
        }
    }
    Ok(())
}

/// Notes that so much is known of the term of an identity, if there is one.
fn learn(state: &mut State, identity: Option<u32>, known: Known)
    ensures { state.new ≡ learn_of state.old identity known }
{
    if let Some(identity) = identity {
        state.identities.learn(identity, known);
    }
}

fn matched(state: &mut State, register: u16, constant: Constant) -> Result<(), Memory>
    ensures { OnOk result (state.new ≡ retype state.old register (constant_word constant)) }
{
    retype(state, register, constant_word(constant))
}

fn constant_word(constant: Constant) -> WordType
    ensures { result ≡ constant_word constant }
{
    match constant {
        Constant::Int(_) => WordType::Int,
        Constant::Atom(_) => WordType::Atom,
    }
}

/// Gives a register's word a type. Its identity stays.
fn retype(state: &mut State, register: u16, word: WordType) -> Result<(), Memory>
    ensures { OnOk result (state.new ≡ retype state.old register word) }
{
    match state.register(register) {
        Some(held) => {
            let holds = PlaceType::Word(word);
            let identity = held.identity;
            state.set(Place::Register(register), Held { holds, identity })
        }
        None => Ok(()),
    }
}

fn matched_functor(state: &mut State, register: u16, functor: Functor) -> Result<(), Memory>
    ensures { OnOk result (state.new ≡ matched_functor state.old register (register_of state.old register) functor) }
{
    match state.register(register) {
        Some(held) => retype(state, register, functor_type(held.holds, functor)),
        None => Ok(()),
    }
}

/// The type of a word that was seen to be a structure of this functor.
fn functor_type(holds: PlaceType, functor: Functor) -> WordType
    ensures { result ≡ functor_type holds functor }
{
    match holds {
        PlaceType::Word(word) => structure_type(functor, is_ground(word), is_full(word)),
        _ => WordType::Structure(functor),
    }
}

/// After a call no register is set, the holes that were passed are filled, and as much is known of the other arguments as the
/// callee says.
fn called(state: &mut State, callee: Option<&Signature>) -> Result<(), Memory>
    ensures { OnOk result (state.new ≡ called state.old (option_copied callee.entry)) }
{
    state.weaken();
    answered(state, callee);
    state.registers.clear();
    state.settle();
    Ok(())
}

/// Notes what a callee did with the arguments.
fn answered(state: &mut State, callee: Option<&Signature>)
    ensures { state.new ≡ answered state.old (option_copied callee.entry) }
{
    if let Some(signature) = callee {
        fill_passed(state, signature.args.as_slice());
        learn_results(
            state,
            signature.args.as_slice(),
            signature.results.as_slice(),
        );
    }
}

/// Notes that each hole that is passed was filled.
fn fill_passed(state: &mut State, args: &[ArgType])
    ensures { state.new ≡ fill_passed_from 0 args.now state.old }
{
    for (number, declared) in args.iter().enumerate() {
        let hole = passed_hole(state, number, *declared);
        fill_hole(state, hole);
    }
}

/// Notes that a hole was passed and filled, if there is one. A slot that held it is then a cell.
fn fill_hole(state: &mut State, hole: Option<u32>)
    ensures { state.new ≡ fill_hole state.old hole }
{
    if let Some(identity) = hole {
        state.fill(identity);
        state.identities.set(identity, Identity::Term(Known::Any));
        state.slots.learn_passed(identity, &mut state.identities);
        state.slots.pass(identity);
    }
}

/// Notes what a callee says of the arguments that are no results.
fn learn_results(state: &mut State, args: &[ArgType], results: &[ResultType])
    ensures { state.new ≡ learn_results_from results.now 0 args.now state.old }
{
    for (number, declared) in args.iter().enumerate() {
        learn_result(state, number, *declared, results);
    }
}

/// Notes what a callee says of one argument, where that is no result.
fn learn_result(state: &mut State, number: usize, declared: ArgType, results: &[ResultType])
    ensures { state.new ≡ learn_result state.old number declared results.now }
{
    if !is_result(declared) {
        learn_said(state, number, results.get(number).copied());
    }
}

fn learn_said(state: &mut State, number: usize, said: Option<ResultType>)
    ensures { state.new ≡ learn_said state.old number said }
{
    if let Some(said) = said {
        let identity = passed_identity(state, number);
        learn(state, identity, result_known(said));
    }
}

fn allocated(state: &mut State, size: u16) -> Result<(), Memory>
    ensures { OnOk result (state.new ≡ allocated state.old size) }
{
    state.slots.clear();
    state.frame = Some(size);
    Ok(())
}

fn deallocated(state: &mut State) -> Result<(), Memory>
    ensures { OnOk result (state.new ≡ deallocated state.old) }
{
    state.slots.clear();
    state.frame = None;
    Ok(())
}

fn evaluated(
    state: &mut State,
    scope: &Scope,
    register: u16,
    expression: Source,
) -> Result<(), Memory>
    ensures { OnOk result (state.new ≡ evaluated state.old register (operand state.old scope.now.code.now.pool expression)) }
{
    if let Some(operand) = Operand::of(state, scope.code, expression) {
        learn(state, operand.identity, Known::Ground);
    }
    state.set_register(register, PlaceType::Word(WordType::Int))
}

/// What is known of the arguments of a built-in that succeeded.
fn taught(builtin: Builtin) -> [Known; 3]
    ensures { result ≡ taught builtin }
{
    match builtin {
        Builtin::Atom | Builtin::Integer | Builtin::Number | Builtin::Atomic => {
            [Known::Ground, Known::Any, Known::Any]
        }
        Builtin::Nonvar | Builtin::Compound => [Known::Nonvar, Known::Any, Known::Any],
        Builtin::Functor => [Known::Nonvar, Known::Ground, Known::Ground],
        Builtin::Arg => [Known::Ground, Known::Nonvar, Known::Any],
        Builtin::Univ => [Known::Nonvar, Known::Nonvar, Known::Any],
        Builtin::Compare | Builtin::PutChar => [Known::Ground, Known::Any, Known::Any],
        _ => [Known::Any, Known::Any, Known::Any],
    }
}

fn done(state: &mut State, builtin: Builtin) -> Result<(), Memory>
    ensures { OnOk result (state.new ≡ done state.old builtin) }
{
    state.weaken();
    learn_taught(state, &taught(builtin));
    Ok(())
}

/// Notes what is known of the arguments of a built-in.
fn learn_taught(state: &mut State, taught: &[Known])
    ensures { state.new ≡ learn_taught_from 0 taught.now state.old }
{
    for (number, known) in taught.iter().enumerate() {
        let identity = passed_identity(state, number);
        learn(state, identity, *known);
    }
}

/// Puts a new hole into a register. As a push it counts as what it is for.
fn holed(state: &mut State, register: u16, holds: HoleType) -> Result<(), Memory>
    ensures { OnOk result (state.new ≡ holed state.old register holds) }
{
    let holds = PlaceType::Hole(hole_word(holds));
    let identity = state.identities.add(Identity::Made)?;
    state.made = state.made.checked_add(1).ok_or(Memory)?;
    state.set(Place::Register(register), Held { holds, identity })?;
    push(state, holds)
}

/// No place keeps a hole that was filled.
fn filled(state: &mut State, register: u16) -> Result<(), Memory>
    ensures { OnOk result (state.new ≡ filled state.old register) }
{
    state.weaken();
    if let Some(held) = state.register(register) {
        state.fill(held.identity);
        state.unset_all_of(held.identity);
    }
    state.settle();
    Ok(())
}

/// A catcher is in force, and the label of its ball was named with this number.
fn catching(state: &mut State, labels: &Labels, registers: u16, ball: Target) -> Result<(), Memory>
    ensures { OnOk result (state.new ≡ caught_by state.old (length labels.now) registers ball) }
{
    state.catching = true;
    match ball {
        Target::Label(number) => state.caught.name(labels.len(), number, registers),
        Target::Fails => Ok(()),
    }
}

fn uncaught(state: &mut State) -> Result<(), Memory>
    ensures { OnOk result (state.new ≡ uncaught state.old) }
{
    state.catching = false;
    Ok(())
}
