use bam_code::line::Line;
use bam_code::switch_target::SwitchTarget;
use bam_code::target::Target;
use std::alloc::Global;
use std::test::Fail;

/// The number of a line that is a label, an alternative or the label of a ball.
pub fn label_number(line: &Line) -> Option<u32> {
    match line {
        Line::Label { number, .. } | Line::Alt { number, .. } | Line::Ball { number, .. } => Some(
            *number,
        ),
        _ => None,
    }
}

/// The numbers of the labels that a line names.
pub fn named_labels(alloc: Global, line: &Line) -> Result<Vec<u32>, Fail> {
    let mut labels = Vec::new(alloc);
    match line {
        Line::Jump(to) | Line::Retry(to) => note(*to, &mut labels)?,
        Line::Switch {
            reference,
            atom,
            integer,
            list,
            structure,
            ..
        } => {
            if let SwitchTarget::Label(number) = reference {
                labels.push(*number)?;
            }
            for to in [*atom, *integer, *list, *structure] {
                note(to, &mut labels)?;
            }
        }
        Line::Match { other, .. } | Line::Functor { other, .. } => note(*other, &mut labels)?,
        Line::Try { alternative, .. } => note(*alternative, &mut labels)?,
        Line::Catch { ball, .. } => note(*ball, &mut labels)?,
        _ => {}
    }
    Ok(labels)
}

fn note(to: Target, labels: &mut Vec<u32>) -> Result<(), Fail> {
    if let Target::Label(number) = to {
        labels.push(number)?;
    }
    Ok(())
}

/// The place of a label among the lines.
pub fn place_of(lines: &[Line], number: u32) -> Option<usize> {
    lines
        .iter()
        .position(|line| label_number(line) == Some(number))
}

/// The place of the first instruction from a place on.
pub fn instruction_from(lines: &[Line], place: usize) -> Option<usize> {
    for (number, line) in lines.iter().enumerate() {
        if number >= place && label_number(line).is_none() {
            return Some(number);
        }
    }
    None
}
