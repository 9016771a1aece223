ghost use Rattle.std.specs.Prelude.{◌≡◌};
ghost use Rattle.std.specs.List.{list_any};
ghost use Rattle.bam_types.specs.Labels.{target_label};
ghost use Rattle.bam_types.specs.LineRules.{
  keeps_catch,
  is_accepted_beside_catcher,
  is_barrier,
  is_caught_at,
  is_named_alike,
};
ghost use Rattle.bam_types.specs.Scopes.{within_of};
ghost use Rattle.bam_types.specs.States.{caught_at};

use crate::choice_rule::holds_at;
use crate::labels::LabelLine;
use crate::scope::Scope;
use crate::state::State;
use bam_code::arg_type::ArgType;
use bam_code::line::Line;
use bam_code::signature::Signature;
use bam_code::target::Target;

/// The rule of catchers. While one is in force, few instructions are accepted. `catch` needs that none is, that the hole of each
/// result was filled, and a ball's label without a frame and slots whose items hold now and whose registers it keeps; no
/// other `catch` before names that label with another number. `uncatch` needs that one is in force.
pub fn keeps_catch(scope: &Scope, state: &State, line: &Line) -> bool
    ensures { result ≡ keeps_catch (within_of scope.now) state.now line.now }
{
    match line {
        Line::Catch { registers, ball } => {
            !state.catching
                && state.has_filled_all()
                && is_caught_at(scope, state, *registers, *ball)
        }
        Line::Uncatch => state.catching,
        _ => !state.catching || is_accepted_beside_catcher(scope, line),
    }
}

fn is_accepted_beside_catcher(scope: &Scope, line: &Line) -> bool
    ensures { result ≡ is_accepted_beside_catcher (within_of scope.now) line.now }
{
    match line {
        Line::Move { .. } | Line::Allocate(_) => true,
        Line::Call(name) => match scope.callee(name) {
            Some(signature) => !takes_barrier(signature),
            None => false,
        },
        _ => false,
    }
}

fn takes_barrier(signature: &Signature) -> bool
    ensures { result ≡ list_any is_barrier signature.now.args }
{
    signature
        .args
        .as_slice()
        .iter()
        .any(|declared| is_barrier(*declared))
}

fn is_barrier(declared: ArgType) -> bool
    ensures { result ≡ is_barrier declared }
{
    matches!(declared, ArgType::Bar)
}

/// Whether a ball that is caught with this number can go to a target.
fn is_caught_at(scope: &Scope, state: &State, registers: u16, target: Target) -> bool
    ensures { result ≡ is_caught_at state.now registers (target_label (within_of scope.now) target) }
{
    match scope.target(target) {
        Some(label) => {
            label.kind.is_ball()
                && label.is_frameless()
                && label.has_registers_below(registers)
                && holds_at(state, label)
                && is_named_alike(state, label, registers)
        }
        None => false,
    }
}

/// Whether no `catch` before names a ball's label with another number.
fn is_named_alike(state: &State, label: LabelLine, registers: u16) -> bool
    ensures { result ≡ is_named_alike (caught_at state.now label.entry.number) registers }
{
    match state.caught_at(label.number) {
        Some(before) => before == registers,
        None => true,
    }
}
