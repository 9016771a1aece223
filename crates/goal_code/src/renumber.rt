ghost use Rattle.std.specs.Prelude.{◌≡◌, IfOk};
ghost use Rattle.unify_special.specs.Steps.{step_of, steps_of};

use aq_term::memory::Memory;
use bam_code::line::Line;
use bam_code::lines::Lines;
use bam_code::switch_target::SwitchTarget;
use bam_code::target::Target;
use std::alloc::Global;

/// For each label as it was written its number in the order of the lines.
#[derive(Drop)]
struct Numbers {
    items: Vec<u32>,
}

/// The lines of a procedure with their labels numbered in the order of the lines. The labels are below a number.
pub fn renumbered(alloc: Global, lines: Lines, labels: u32) -> Result<Lines, Memory>
    ensures { IfOk result (λ made. steps_of made ≡ steps_of lines) }
{
    let numbers = Numbers::of(alloc, lines.as_slice(), labels)?;
    let mut lines = lines.into_vec();
    for line in lines.iter_mut() {
        numbers.renumber(line);
    }
    Ok(Lines::from_vec(lines))
}

/// The number of the label that a line is.
fn own_label(line: &Line) -> Option<u32> {
    match line {
        Line::Label { number, .. } | Line::Alt { number, .. } | Line::Ball { number, .. } => {
            Some(*number)
        }
        _ => None,
    }
}

impl Numbers {
    fn of(alloc: Global, lines: &[Line], labels: u32) -> Result<Numbers, Memory> {
        let mut items = vec![in alloc; 0u32; labels as usize]?;
        let mut next: u32 = 0;
        for line in lines {
            if let Some(number) = own_label(line) {
                if let Some(item) = items.get_mut(number as usize) {
                    *item = next;
                }
                next = next.saturating_add(1);
            }
        }
        Ok(Numbers { items })
    }

    fn number(&self, label: u32) -> u32 {
        self.items.get(label as usize).copied().unwrap_or(label)
    }

    fn target(&self, target: Target) -> Target {
        match target {
            Target::Label(label) => Target::Label(self.number(label)),
            Target::Fails => Target::Fails,
        }
    }

    fn switch_target(&self, target: SwitchTarget) -> SwitchTarget {
        match target {
            SwitchTarget::Label(label) => SwitchTarget::Label(self.number(label)),
            SwitchTarget::Fails => SwitchTarget::Fails,
            SwitchTarget::Never => SwitchTarget::Never,
        }
    }

    /// Puts the numbers of labels into a line.
    fn renumber(&self, line: &mut Line)
        ensures { step_of line.new ≡ step_of line.old }
    {
        match line {
            Line::Label { number, .. } => *number = self.number(*number),
            Line::Alt { number, .. } => *number = self.number(*number),
            Line::Ball { number, .. } => *number = self.number(*number),
            Line::Jump(target) => *target = self.target(*target),
            Line::Retry(target) => *target = self.target(*target),
            Line::Try { alternative, .. } => *alternative = self.target(*alternative),
            Line::Catch { ball, .. } => *ball = self.target(*ball),
            Line::Match { other, .. } => *other = self.target(*other),
            Line::Functor { other, .. } => *other = self.target(*other),
            Line::Switch {
                reference,
                atom,
                integer,
                list,
                structure,
                ..
            } => {
                *reference = self.switch_target(*reference);
                *atom = self.target(*atom);
                *integer = self.target(*integer);
                *list = self.target(*list);
                *structure = self.target(*structure);
            }
            _ => {}
        }
    }
}
