ghost use Rattle.std.specs.Prelude.{◌≡◌};
ghost use Rattle.bam_peephole.specs.LineLabels.{any_label, plain_label};

use bam_code::line::Line;

/// The number of a label, and none of an alternative, the label of a ball or an instruction.
pub fn plain_label(line: &Line) -> Option<u32>
    ensures { result ≡ plain_label line.now }
{
    match line {
        Line::Label { number, .. } => Some(*number),
        _ => None,
    }
}

/// The number of a label, an alternative or the label of a ball, and none of an instruction.
pub fn any_label(line: &Line) -> Option<u32>
    ensures { result ≡ any_label line.now }
{
    match line {
        Line::Label { number, .. } | Line::Alt { number, .. } | Line::Ball { number, .. } => {
            Some(*number)
        }
        _ => None,
    }
}
