ghost use Rattle.std.specs.Prelude.{◌≡◌, None};
ghost use Rattle.bam_types.specs.LabelFit.{has_all};
ghost use Rattle.bam_types.specs.Labels.{label_seen};
ghost use Rattle.bam_types.specs.LineRules.{keeps_choice, is_choice};
ghost use Rattle.bam_types.specs.Scopes.{within_of};

use crate::fit::Branched;
use crate::labels::LabelLine;
use crate::scope::Scope;
use crate::state::State;
use bam_code::line::Line;

/// The rule of choices. `try` and `retry` name an alternative without a frame and slots whose items hold now. A `try` keeps each
/// register that is listed there.
pub fn keeps_choice(scope: &Scope, state: &State, line: &Line) -> bool
    ensures { result ≡ keeps_choice (within_of scope.now) state.now line.now }
{
    match line {
        Line::Try {
            registers,
            alternative,
        } => match scope.target(*alternative) {
            Some(label) => {
                is_choice(label) && label.has_registers_below(*registers) && holds_at(state, label)
            }
            None => false,
        },
        Line::Retry(alternative) => match scope.target(*alternative) {
            Some(label) => is_choice(label) && holds_at(state, label),
            None => false,
        },
        _ => true,
    }
}

/// Whether a label is an alternative without a frame and slots.
fn is_choice(label: LabelLine) -> bool
    ensures { result ≡ is_choice (label_seen label.entry) }
{
    label.kind.is_alternative() && label.is_frameless()
}

/// Whether all that a label lists holds now.
pub fn holds_at(state: &State, label: LabelLine) -> bool
    ensures { result ≡ has_all state.now None label.entry.items.now }
{
    Branched { state, seen: None }.has_all(label.items)
}
