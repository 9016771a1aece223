ghost use Rattle.std.specs.Prelude.{◌≡◌};
ghost use Rattle.bam_peephole.specs.Clean.{is_needed, jumps_to, moves_in_place};

use crate::line_labels::plain_label;
use bam_code::line::Line;
use bam_code::place::Place;
use bam_code::source::Source;
use bam_code::target::Target;

/// Whether a line does something. A `move` of a place to itself, a `jump` to the label directly behind it, and a label in front of
/// another one do not. `behind` is the number of the label directly behind the line.
pub fn is_needed(line: &Line, behind: Option<u32>) -> bool
    ensures { result ≡ is_needed behind line.now }
{
    !moves_in_place(line)
        && !jumps_to(line, behind)
        && !(plain_label(line).is_some() && behind.is_some())
}

/// Whether a line is a `move` of a place to itself.
pub fn moves_in_place(line: &Line) -> bool
    ensures { result ≡ moves_in_place line.now }
{
    match line {
        Line::Move {
            into: Place::Register(into),
            from: Source::Register(from),
        } => *into == *from,
        Line::Move {
            into: Place::Slot(into),
            from: Source::Slot(from),
        } => *into == *from,
        _ => false,
    }
}

/// Whether a line is a `jump` to the label of this number.
fn jumps_to(line: &Line, behind: Option<u32>) -> bool
    ensures { result ≡ jumps_to behind line.now }
{
    match (line, behind) {
        (Line::Jump(Target::Label(number)), Some(behind)) => *number == behind,
        _ => false,
    }
}
