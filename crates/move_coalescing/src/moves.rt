ghost use Rattle.std.specs.Prelude.{◌≡◌, IfSome, true};
ghost use Rattle.move_coalescing.specs.Outlines.{is_register_move};

use bam_code::line::Line;
use bam_code::place::Place;
use bam_code::source::Source;

/// The two registers of a `move` from one to another.
#[derive(Clone, Copy, Debug)]
pub struct RegisterMove {
    pub into: u16,
    pub from: u16,
}

/// The registers of a line that is a `move` from a register to a register.
pub fn register_move(line: &Line) -> Option<RegisterMove>
    ensures { IfSome result (λ found. is_register_move line.now ≡ true) }
{
    match line {
        Line::Move {
            into: Place::Register(into),
            from: Source::Register(from),
        } => Some(RegisterMove {
            into: *into,
            from: *from,
        }),
        _ => None,
    }
}
