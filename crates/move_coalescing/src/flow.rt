use bam_code::line::Line;
use bam_code::target::Target;

/// Where a run goes from a line, and what it needs there of registers that the line does not name.
#[derive(Clone, Copy, Debug, PartialEq, Eq)]
pub enum Flow {
    /// To the next line alone.
    GoesOn,
    /// Out of the procedure, where arguments and results are all that is needed beside what the line reads.
    Leaves,
    /// To or from a label, or the line keeps registers for one.
    Branches,
}

/// Where a run goes from a line.
pub fn flow_after(line: &Line) -> Flow {
    match line {
        Line::Call(_) | Line::Exec(_) | Line::Return | Line::Fail | Line::Raise(_) => Flow::Leaves,
        Line::Label { .. } | Line::Alt { .. } | Line::Ball { .. } => Flow::Branches,
        Line::Jump(_) | Line::Switch { .. } => Flow::Branches,
        Line::Try { .. } | Line::Retry(_) | Line::Catch { .. } => Flow::Branches,
        Line::Match { other, .. } | Line::Functor { other, .. } => flow_by_test(*other),
        _ => Flow::GoesOn,
    }
}

fn flow_by_test(other: Target) -> Flow {
    match other {
        Target::Label(_) => Flow::Branches,
        Target::Fails => Flow::GoesOn,
    }
}
