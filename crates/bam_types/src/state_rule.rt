ghost use Rattle.std.specs.Prelude.{◌≡◌};
ghost use Rattle.bam_types.specs.Labels.{label_of};
ghost use Rattle.bam_types.specs.LineRules.{
  keeps_state,
  fits_here,
  fits_there,
  fits_at,
  fits_tags,
  list_of,
  structure_of,
  seen_as,
};
ghost use Rattle.bam_types.specs.Scopes.{within_of};

use crate::fit::{Branched, Seen};
use crate::flow::of_reference;
use crate::held::Held;
use crate::labels::LabelLine;
use crate::place_types::strip_place;
use crate::scope::Scope;
use crate::state::State;
use crate::word_types::{is_full, is_ground, list_cell_type, made_direct};
use bam_code::line::Line;
use bam_code::place_type::PlaceType;
use bam_code::target::Target;
use bam_code::word_type::WordType;

/// The rule of states: at each label to which a line goes, the state is below the label's. A label line that is gone on to counts
/// as going to itself.
pub fn keeps_state(scope: &Scope, state: &State, entered: bool, line: &Line) -> bool
    ensures { result ≡ keeps_state (within_of scope.now) state.now entered line.now }
{
    fits_here(state, entered, line) && fits_there(scope, state, line)
}

/// Whether the state that goes on to a label line is below that of the label.
fn fits_here(state: &State, entered: bool, line: &Line) -> bool
    ensures { result ≡ fits_here state.now entered (label_of line.now) }
{
    match LabelLine::of(line) {
        Some(label) => !entered || Branched { state, seen: None }.fits(label),
        None => true,
    }
}

/// Whether the state is below that of each label to which a line goes, alternatives and the labels of balls aside.
fn fits_there(scope: &Scope, state: &State, line: &Line) -> bool
    ensures { result ≡ fits_there (within_of scope.now) state.now line.now }
{
    match line {
        Line::Jump(target) => fits_at(scope, state, None, *target),
        Line::Match { other, .. } | Line::Functor { other, .. } => {
            fits_at(scope, state, None, *other)
        }
        Line::Switch {
            register,
            reference,
            atom,
            integer,
            list,
            structure,
        } => match state.register(*register) {
            Some(held) => {
                let targets = Targets {
                    reference: of_reference(*reference),
                    atom: *atom,
                    integer: *integer,
                    list: *list,
                    structure: *structure,
                };
                fits_tags(scope, state, *register, held, targets)
            }
            None => true,
        },
        _ => true,
    }
}

/// Where a switch goes.
#[derive(Clone, Copy)]
struct Targets {
    reference: Target,
    atom: Target,
    integer: Target,
    list: Target,
    structure: Target,
}

/// Whether the state is below that of each label of a switch, where the register was seen to be of its type.
fn fits_tags(scope: &Scope, state: &State, register: u16, held: Held, targets: Targets) -> bool
    ensures { result ≡ fits_tags (within_of scope.now) state.now register held targets.reference targets.atom targets.integer targets.list targets.structure }
{
    let reference = seen_as(register, held, WordType::Var);
    let atom = seen_as(register, held, WordType::Atom);
    let integer = seen_as(register, held, WordType::Int);
    let list = seen_as(register, held, list_of(held.holds));
    let structure = seen_as(register, held, structure_of(held.holds));
    fits_at(scope, state, reference, targets.reference)
        && fits_at(scope, state, atom, targets.atom)
        && fits_at(scope, state, integer, targets.integer)
        && fits_at(scope, state, list, targets.list)
        && fits_at(scope, state, structure, targets.structure)
}

/// Whether the state is below that of the label that a target names.
fn fits_at(scope: &Scope, state: &State, seen: Option<Seen>, target: Target) -> bool
    ensures { result ≡ fits_at (within_of scope.now) state.now seen target }
{
    match scope.target(target) {
        Some(label) => Branched { state, seen }.fits(label),
        None => true,
    }
}

/// What is known where a register's word was seen to be of a type.
fn seen_as(register: u16, held: Held, word: WordType) -> Option<Seen>
    ensures { result ≡ seen_as register held word }
{
    let holds = PlaceType::Word(word);
    Some(Seen {
        register,
        holds,
        identity: held.identity,
        known: strip_place(holds),
    })
}

/// The type of a word that was seen to be a list cell.
fn list_of(holds: PlaceType) -> WordType
    ensures { result ≡ list_of holds }
{
    match holds {
        PlaceType::Word(word) => list_cell_type(is_ground(word), is_full(word)),
        _ => WordType::ListCell,
    }
}

/// The type of a word that was seen to be a structure.
fn structure_of(holds: PlaceType) -> WordType
    ensures { result ≡ structure_of holds }
{
    match holds {
        PlaceType::Word(word) => made_direct(word),
        _ => WordType::Direct,
    }
}
