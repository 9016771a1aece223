ghost use Rattle.std.specs.Prelude.{◌≡◌};
ghost use Rattle.bam_peephole.specs.Reached.{goes_on};

use bam_code::line::Line;

/// Whether a run goes on from a line to the next one.
pub fn goes_on(line: &Line) -> bool
    ensures { result ≡ goes_on line.now }
{
    !matches!(
        line,
        Line::Jump(_)
            | Line::Switch { .. }
            | Line::Fail
            | Line::Exec(_)
            | Line::Return
            | Line::Raise(_)
    )
}
