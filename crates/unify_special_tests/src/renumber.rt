use aq_term::memory::Memory;
use bam_code::line::Line;
use bam_code::switch_target::SwitchTarget;
use bam_code::target::Target;
use std::alloc::Global;

/// The numbers of labels in the order of the lines, by the numbers that they have.
#[derive(Drop)]
struct Numbers {
    numbers: Vec<u32>,
}

impl Numbers {
    fn of(alloc: Global, lines: &[Line]) -> Result<Numbers, Memory> {
        let mut numbers = vec![in alloc; 0u32; lines.len()]?;
        let mut next = 0u32;
        for line in lines {
            if let Line::Label { number, .. } = line {
                if let Some(item) = numbers.get_mut(*number as usize) {
                    *item = next;
                }
                next = next.saturating_add(1);
            }
        }
        Ok(Numbers { numbers })
    }

    fn number(&self, label: u32) -> u32 {
        self.numbers.get(label as usize).copied().unwrap_or(label)
    }

    fn target(&self, target: Target) -> Target {
        match target {
            Target::Label(number) => Target::Label(self.number(number)),
            Target::Fails => Target::Fails,
        }
    }

    fn reference(&self, target: SwitchTarget) -> SwitchTarget {
        match target {
            SwitchTarget::Label(number) => SwitchTarget::Label(self.number(number)),
            other => other,
        }
    }

    fn rename(&self, line: &mut Line) {
        match line {
            Line::Label { number, .. } => *number = self.number(*number),
            Line::Jump(target) => *target = self.target(*target),
            Line::Match { other, .. } => *other = self.target(*other),
            Line::Functor { other, .. } => *other = self.target(*other),
            Line::Switch {
                reference,
                atom,
                integer,
                list,
                structure,
                ..
            } => {
                *reference = self.reference(*reference);
                *atom = self.target(*atom);
                *integer = self.target(*integer);
                *list = self.target(*list);
                *structure = self.target(*structure);
            }
            _ => {}
        }
    }
}

/// The lines with their labels numbered in their order. Each number is below the number of lines.
pub fn renumbered(alloc: Global, lines: Vec<Line>) -> Result<Vec<Line>, Memory> {
    let mut lines = lines;
    let numbers = Numbers::of(alloc, lines.as_slice())?;
    for line in lines.iter_mut() {
        numbers.rename(line);
    }
    Ok(lines)
}
