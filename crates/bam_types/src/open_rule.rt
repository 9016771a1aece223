ghost use Rattle.std.specs.Prelude.{◌≡◌};
ghost use Rattle.bam_types.specs.LineRules.{keeps_open};

use crate::state::State;
use bam_code::line::Line;

/// The rule of pushes. While one is due each line is a push, `push_new` or `hole`, the last two into another register than that of
/// the structure. While none is due no line is a push or `push_new`.
pub fn keeps_open(state: &State, line: &Line) -> bool
    ensures { result ≡ keeps_open state.now line.now }
{
    match state.opening {
        Some(opening) => match line {
            Line::Push(_) => true,
            Line::PushNew { register } | Line::Hole { register, .. } => {
                *register != opening.register
            }
            _ => false,
        },
        None => !matches!(line, Line::Push(_) | Line::PushNew { .. }),
    }
}
