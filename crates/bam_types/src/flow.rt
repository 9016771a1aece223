ghost use Rattle.std.specs.Prelude.{◌≡◌, Some};
ghost use Rattle.bam_types.specs.Flow.{
  goes_on,
  is_entered,
  keeps_flow,
  keeps_entered,
  keeps_end,
  keeps_alternative,
  follows_alternative,
  is_alternative_line,
  keeps_targets,
  of_reference,
  is_any_after,
  is_label_after,
};
ghost use Rattle.bam_types.specs.Labels.{label_of};
ghost use Rattle.bam_types.specs.Scopes.{within_of};

use crate::labels::LabelLine;
use crate::scope::Scope;
use bam_code::line::Line;
use bam_code::switch_target::SwitchTarget;
use bam_code::target::Target;

/// Whether a run goes on from a line to the next one.
pub fn goes_on(line: &Line) -> bool
    ensures { result ≡ goes_on line.now }
{
    !matches!(
        line,
        Line::Jump(_)
            | Line::Switch { .. }
            | Line::Fail
            | Line::Exec(_)
            | Line::Return
            | Line::Raise(_)
    )
}

/// Whether a run goes on to the line at a place, which the first line's start counts as.
pub fn is_entered(lines: &[Line], at: usize) -> bool
    ensures { result ≡ is_entered lines.now at }
{
    match at.checked_sub(1) {
        Some(before) => match lines.get(before) {
            Some(line) => goes_on(line),
            None => false,
        },
        None => true,
    }
}

/// The rule of the flow. A line that no run goes on to is a label, an alternative or the label of a ball, and the last two are
/// never gone on to. The last line is an instruction that does not go on. `retry` and `trust` stand first after an
/// alternative. A number names a label that stands later, and that of a jump or a test is no alternative and no ball.
pub fn keeps_flow(scope: &Scope, at: usize, line: &Line) -> bool
    ensures { result ≡ keeps_flow (within_of scope.now) at line.now }
{
    keeps_entry(scope, at, line)
        && keeps_end(scope, at, line)
        && keeps_alternative(scope, at, line)
        && keeps_targets(scope, at, line)
}

/// Whether the line may be gone on to, where a run does so, and else may begin anew.
fn keeps_entry(scope: &Scope, at: usize, line: &Line) -> bool
    ensures { result ≡ keeps_entered (label_of line.now) (is_entered scope.now.lines.now at) }
{
    let entered = is_entered(scope.lines, at);
    match LabelLine::of(line) {
        Some(label) => label.kind.is_label() || !entered,
        None => entered,
    }
}

/// Whether a last line does not go on.
fn keeps_end(scope: &Scope, at: usize, line: &Line) -> bool
    ensures { result ≡ keeps_end scope.now.lines.now at line.now }
{
    at < scope.lines.len().saturating_sub(1) || !goes_on(line)
}

/// Whether `retry` and `trust` stand first after an alternative.
fn keeps_alternative(scope: &Scope, at: usize, line: &Line) -> bool
    ensures { result ≡ keeps_alternative scope.now.lines.now at line.now }
{
    match line {
        Line::Retry(_) | Line::Trust => follows_alternative(scope.lines, at),
        _ => true,
    }
}

fn follows_alternative(lines: &[Line], at: usize) -> bool
    ensures { result ≡ follows_alternative lines.now at }
{
    match at.checked_sub(1) {
        Some(before) => match lines.get(before) {
            Some(line) => is_alternative(line),
            None => false,
        },
        None => false,
    }
}

fn is_alternative(line: &Line) -> bool
    ensures { result ≡ is_alternative_line (Some line.now) }
{
    matches!(line, Line::Alt { .. })
}

/// Whether each number that a line names is that of a label it may go to.
fn keeps_targets(scope: &Scope, at: usize, line: &Line) -> bool
    ensures { result ≡ keeps_targets (within_of scope.now) at line.now }
{
    match line {
        Line::Jump(target) => is_label_after(scope, at, *target),
        Line::Switch {
            reference,
            atom,
            integer,
            list,
            structure,
            ..
        } => {
            is_label_after(scope, at, of_reference(*reference))
                && is_label_after(scope, at, *atom)
                && is_label_after(scope, at, *integer)
                && is_label_after(scope, at, *list)
                && is_label_after(scope, at, *structure)
        }
        Line::Match { other, .. } | Line::Functor { other, .. } => {
            is_label_after(scope, at, *other)
        }
        Line::Try { alternative, .. } => is_any_after(scope, at, *alternative),
        Line::Retry(alternative) => is_any_after(scope, at, *alternative),
        Line::Catch { ball, .. } => is_any_after(scope, at, *ball),
        _ => true,
    }
}

/// Where a switch goes with a reference, which for one that never comes counts as a failing.
pub fn of_reference(target: SwitchTarget) -> Target
    ensures { result ≡ of_reference target }
{
    match target {
        SwitchTarget::Label(number) => Target::Label(number),
        SwitchTarget::Fails | SwitchTarget::Never => Target::Fails,
    }
}

/// Whether a target is a failing, or a label, an alternative or the label of a ball that stands after a place.
fn is_any_after(scope: &Scope, at: usize, target: Target) -> bool
    ensures { result ≡ is_any_after (within_of scope.now) at target }
{
    match target {
        Target::Label(number) => match scope.labels.line_of(number) {
            Some(line) => at < line,
            None => false,
        },
        Target::Fails => true,
    }
}

/// Whether a target is a failing, or a label after a place that is no alternative and no ball.
fn is_label_after(scope: &Scope, at: usize, target: Target) -> bool
    ensures { result ≡ is_label_after (within_of scope.now) at target }
{
    is_any_after(scope, at, target)
        && match scope.target(target) {
            Some(label) => label.kind.is_label(),
            None => true,
        }
}
