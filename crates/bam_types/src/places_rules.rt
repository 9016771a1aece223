//! The rules on frames, places and types of operands.

ghost use Rattle.std.specs.Prelude.{◌≡◌};
ghost use Rattle.std.specs.List.{list_all, list_any};
ghost use Rattle.bam_types.specs.Operands.{operand, reads};
ghost use Rattle.bam_types.specs.PlaceRules.{
  keeps_frame,
  names_slot,
  reads_slot,
  writes_slot,
  keeps_set,
  is_set,
  keeps_slot,
  keeps_index,
  keeps_cell,
  has_cell,
  loaded_from,
  made_of,
};
ghost use Rattle.bam_types.specs.States.{register as register_of};
ghost use Rattle.bam_types.specs.SwitchRule.{
  keeps_tag,
  is_below,
  are_below,
  is_place,
  loads,
  is_part,
  is_part_type,
  switched,
  reads_term,
  fits_held,
  fits_hole,
};

use crate::operand::{Operand, is_slot, reads};
use crate::place_types::{deref_place, place_below};
use crate::scope::Scope;
use crate::state::State;
use crate::word_types::word_below;
use aq_term::functor::Functor;
use bam_code::line::Line;
use bam_code::place::Place;
use bam_code::place_type::PlaceType;
use bam_code::source::Source;
use bam_code::switch_target::SwitchTarget;
use bam_code::word_type::WordType;

/// The rule of the frame. `call` and `deallocate` need a frame, and so does each slot that a line names but in a label's items.
/// `allocate`, `exec`, `return`, `try` and `catch` need that there is none.
pub fn keeps_frame(state: &State, line: &Line) -> bool
    ensures { result ≡ keeps_frame state.now line.now }
{
    match line {
        Line::Call(_) | Line::Deallocate => state.frame.is_some(),
        Line::Allocate(_) | Line::Exec(_) | Line::Return => state.frame.is_none(),
        Line::Try { .. } | Line::Catch { .. } => state.frame.is_none(),
        _ => state.frame.is_some() || !names_slot(line),
    }
}

fn names_slot(line: &Line) -> bool
    ensures { result ≡ names_slot line.now }
{
    writes_slot(line).is_some() || reads_any_slot(line)
}

fn reads_any_slot(line: &Line) -> bool
    ensures { result ≡ list_any reads_slot (reads line.now) }
{
    reads(line).iter().any(|source| reads_slot(*source))
}

fn reads_slot(source: Option<Source>) -> bool
    ensures { result ≡ reads_slot source }
{
    match source {
        Some(source) => is_slot(source),
        None => false,
    }
}

/// The slot that a line writes.
fn writes_slot(line: &Line) -> Option<u8>
    ensures { result ≡ writes_slot line.now }
{
    match line {
        Line::Move {
            into: Place::Slot(number),
            ..
        } => Some(*number),
        _ => None,
    }
}

/// The rule of what is unset: each operand that is read is set.
pub fn keeps_set(scope: &Scope, state: &State, line: &Line) -> bool
    ensures { result ≡ keeps_set scope.now.code.now.pool state.now line.now }
{
    reads(line)
        .iter()
        .all(|source| is_set(scope, state, *source))
}

/// Whether what is read, if anything, is set.
fn is_set(scope: &Scope, state: &State, source: Option<Source>) -> bool
    ensures { result ≡ is_set scope.now.code.now.pool state.now source }
{
    match source {
        Some(source) => Operand::of(state, scope.code, source).is_some(),
        None => true,
    }
}

/// The rule of slots: one that is written was unset.
pub fn keeps_slot(state: &State, line: &Line) -> bool
    ensures { result ≡ keeps_slot state.now line.now }
{
    match writes_slot(line) {
        Some(number) => state.slot(number).is_none(),
        None => true,
    }
}

/// The rule of indices, but for `load`: a slot that is written is within the frame.
pub fn keeps_index(state: &State, line: &Line) -> bool
    ensures { result ≡ keeps_index state.now line.now }
{
    match writes_slot(line) {
        Some(number) => state.has_slot(number),
        None => true,
    }
}

/// The rule of the index of `load`, tested after its type: the cell is one of a list cell, 0 and 1, or of a structure, from 1 on.
pub fn keeps_cell(state: &State, line: &Line) -> bool
    ensures { result ≡ keeps_cell state.now line.now }
{
    match line {
        Line::Load {
            from: Source::Register(number),
            cell,
            ..
        } => has_cell(loaded_from(state, *number), *cell),
        _ => true,
    }
}

/// Whether a cell is there.
fn has_cell(loaded: Option<Loaded>, cell: u8) -> bool
    ensures { result ≡ has_cell loaded cell }
{
    match loaded {
        Some(Loaded::ListCell) => cell < 2,
        Some(Loaded::Structure(functor)) => 0 < cell && cell <= functor.arity,
        None => false,
    }
}

/// What a cell is loaded from.
#[derive(Clone, Copy)]
pub enum Loaded {
    ListCell,
    Structure(Functor),
}

/// What a register's word is made of, where its type says that it is a list cell or a structure.
fn loaded_from(state: &State, register: u16) -> Option<Loaded>
    ensures { result ≡ loaded_from state.now register }
{
    let held = state.register(register)?;
    match held.holds {
        PlaceType::Word(word) => made_of(word),
        _ => None,
    }
}

fn made_of(word: WordType) -> Option<Loaded>
    ensures { result ≡ made_of word }
{
    match word {
        WordType::Structure(functor)
        | WordType::GroundStructure(functor)
        | WordType::FullStructure(functor) => Some(Loaded::Structure(functor)),
        WordType::ListCell | WordType::GroundListCell | WordType::FullListCell => {
            Some(Loaded::ListCell)
        }
        _ => None,
    }
}

/// The rule of types: each operand has the type that the instruction needs.
pub fn keeps_tag(scope: &Scope, state: &State, line: &Line) -> bool
    ensures { result ≡ keeps_tag scope.now.code.now.pool state.now line.now }
{
    match line {
        Line::Deref { from, .. } => {
            is_place(*from) && is_below(scope, state, *from, WordType::Any)
        }
        Line::Load { from, .. } => loads(state, *from),
        Line::Push(from) => {
            is_below(scope, state, *from, WordType::Any) || is_part(scope, state, *from)
        }
        Line::Bind { register, with } => {
            is_below(scope, state, Source::Register(*register), WordType::Var)
                && is_below(scope, state, *with, WordType::Any)
        }
        Line::Unify { register, with } => {
            are_below(
                scope,
                state,
                Source::Register(*register),
                *with,
                WordType::Any,
            )
        }
        Line::Switch {
            register,
            reference,
            ..
        } => is_below(
            scope,
            state,
            Source::Register(*register),
            switched(*reference),
        ),
        Line::Match { register, .. } | Line::Functor { register, .. } => {
            is_below(scope, state, Source::Register(*register), WordType::Direct)
        }
        Line::Cut(from) => is_below(scope, state, *from, WordType::Bar),
        Line::Arith { left, right, .. } | Line::Less { left, right, .. } => {
            are_below(scope, state, *left, *right, WordType::Int)
        }
        Line::Eval { expression, .. } => is_below(scope, state, *expression, WordType::Any),
        Line::Same { left, right, .. } => { are_below(scope, state, *left, *right, WordType::Any) }
        Line::Builtin(_) => reads_terms(scope, state, line),
        Line::Raise(from) => is_below(scope, state, *from, WordType::Any),
        Line::Fill { register, with } => fills(scope, state, *register, *with),
        _ => true,
    }
}

/// Whether what is read from both is of this type.
fn are_below(scope: &Scope, state: &State, left: Source, right: Source, word: WordType) -> bool
    ensures { result ≡ are_below scope.now.code.now.pool state.now left right word }
{
    is_below(scope, state, left, word) && is_below(scope, state, right, word)
}

/// Whether what is read is of this type.
fn is_below(scope: &Scope, state: &State, source: Source, word: WordType) -> bool
    ensures { result ≡ is_below scope.now.code.now.pool state.now source word }
{
    match Operand::of(state, scope.code, source) {
        Some(operand) => place_below(operand.holds, PlaceType::Word(word)),
        None => false,
    }
}

fn is_place(source: Source) -> bool
    ensures { result ≡ is_place source }
{
    matches!(source, Source::Register(_) | Source::Slot(_))
}

/// Whether a cell can be loaded from what is read.
fn loads(state: &State, source: Source) -> bool
    ensures { result ≡ loads state.now source }
{
    match source {
        Source::Register(number) => loaded_from(state, number).is_some(),
        _ => false,
    }
}

/// Whether what is read is a structure with an unfilled hole.
fn is_part(scope: &Scope, state: &State, source: Source) -> bool
    ensures { result ≡ is_part scope.now.code.now.pool state.now source }
{
    match Operand::of(state, scope.code, source) {
        Some(operand) => is_part_type(operand.holds),
        None => false,
    }
}

fn is_part_type(holds: PlaceType) -> bool
    ensures { result ≡ is_part_type holds }
{
    matches!(holds, PlaceType::Part(_))
}

/// The type that a switch needs, by where it goes with a reference.
fn switched(reference: SwitchTarget) -> WordType
    ensures { result ≡ switched reference }
{
    match reference {
        SwitchTarget::Never => WordType::Direct,
        SwitchTarget::Label(_) | SwitchTarget::Fails => WordType::Head,
    }
}

/// Whether all that a line reads stands for terms.
fn reads_terms(scope: &Scope, state: &State, line: &Line) -> bool
    ensures { result ≡ list_all (reads_term scope.now.code.now.pool state.now) (reads line.now) }
{
    reads(line)
        .iter()
        .all(|source| reads_term(scope, state, *source))
}

fn reads_term(scope: &Scope, state: &State, source: Option<Source>) -> bool
    ensures { result ≡ reads_term scope.now.code.now.pool state.now source }
{
    match source {
        Some(source) => is_below(scope, state, source, WordType::Any),
        None => true,
    }
}

/// Whether a register's hole may be filled with what is read.
fn fills(scope: &Scope, state: &State, register: u16, with: Source) -> bool
    ensures { result ≡ fits_held (register_of state.now register) (operand state.now scope.now.code.now.pool with) }
{
    match state.register(register) {
        Some(held) => match Operand::of(state, scope.code, with) {
            Some(operand) => fits_hole(held.holds, operand.holds),
            None => false,
        },
        None => false,
    }
}

/// Whether a place of the second type may be filled into one of the first.
fn fits_hole(hole: PlaceType, with: PlaceType) -> bool
    ensures { result ≡ fits_hole hole with }
{
    match hole {
        PlaceType::Hole(wanted) => match with {
            PlaceType::Part(word) => word_below(word, wanted),
            _ => place_below(deref_place(with), PlaceType::Word(wanted)),
        },
        _ => false,
    }
}
