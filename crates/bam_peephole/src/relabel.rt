ghost use Rattle.std.specs.Prelude.{◌≡◌};
ghost use Rattle.bam_peephole.specs.Relabeled.{
  relabeled,
  relabeled_switch_target,
  relabeled_target,
};

use crate::label_names::LabelNames;
use bam_code::line::Line;
use bam_code::switch_target::SwitchTarget;
use bam_code::target::Target;

/// Gives each label that a line is or names its new number.
pub fn relabel<N: LabelNames>(line: &mut Line, names: &N)
    ensures { line.new ≡ relabeled (N.name_of names.now) line.old }
{
    match line {
        Line::Label { number, .. } => *number = names.name(*number),
        Line::Alt { number, .. } => *number = names.name(*number),
        Line::Ball { number, .. } => *number = names.name(*number),
        Line::Jump(target) => *target = relabeled_target(*target, names),
        Line::Retry(alternative) => *alternative = relabeled_target(*alternative, names),
        Line::Match { other, .. } => *other = relabeled_target(*other, names),
        Line::Functor { other, .. } => *other = relabeled_target(*other, names),
        Line::Try { alternative, .. } => *alternative = relabeled_target(*alternative, names),
        Line::Catch { ball, .. } => *ball = relabeled_target(*ball, names),
        Line::Switch {
            reference,
            atom,
            integer,
            list,
            structure,
            ..
        } => {
            *reference = relabeled_switch_target(*reference, names);
            *atom = relabeled_target(*atom, names);
            *integer = relabeled_target(*integer, names);
            *list = relabeled_target(*list, names);
            *structure = relabeled_target(*structure, names);
        }
        _ => {}
    }
}

fn relabeled_target<N: LabelNames>(target: Target, names: &N) -> Target
    ensures { result ≡ relabeled_target (N.name_of names.now) target }
{
    match target {
        Target::Label(number) => Target::Label(names.name(number)),
        Target::Fails => Target::Fails,
    }
}

fn relabeled_switch_target<N: LabelNames>(target: SwitchTarget, names: &N) -> SwitchTarget
    ensures { result ≡ relabeled_switch_target (N.name_of names.now) target }
{
    match target {
        SwitchTarget::Label(number) => SwitchTarget::Label(names.name(number)),
        SwitchTarget::Fails => SwitchTarget::Fails,
        SwitchTarget::Never => SwitchTarget::Never,
    }
}
