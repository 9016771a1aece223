ghost use Rattle.std.specs.Prelude.{◌≡◌};
ghost use Rattle.bam_text.specs.CodeText.{catches};

use bam_code::line::Line;
use bam_code::source::Source;

/// The version that a text's first line names.
#[derive(Clone, Copy, Debug, PartialEq, Eq)]
pub enum Version {
    /// A text without lines that catch.
    One,
    /// A text with a label of a ball, with `catch` or `uncatch`, or with a `raise` of a register or a slot.
    Two,
}

impl Version {
    /// The version that the first line names.
    pub fn of_text(text: &[u8]) -> Option<Version> {
        match text {
            b"bam 1" => Some(Version::One),
            b"bam 2" => Some(Version::Two),
            _ => None,
        }
    }
}

/// Whether a line is one that the second version is for.
#[tactic(auto, unfolding(crate::specs::CodeText::catches))]
pub fn catches(line: &Line) -> bool
    ensures { result ≡ catches line.now }
{
    matches!(
        line,
        Line::Ball { .. }
            | Line::Catch { .. }
            | Line::Uncatch
            | Line::Raise(Source::Register(_) | Source::Slot(_))
    )
}
