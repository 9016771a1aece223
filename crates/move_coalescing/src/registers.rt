use bam_code::line::Line;
use bam_code::place::Place;
use bam_code::source::Source;

/// The first register that never holds an argument.
pub const FIRST: u16 = 64;

/// The most arguments of a built-in. They are in the registers from r0 on.
const MOST_ARGUMENTS: u16 = 3;

/// The register that a line sets.
pub fn set_register(line: &Line) -> Option<u16> {
    match line {
        Line::Move {
            into: Place::Register(register),
            ..
        }
        | Line::Deref { register, .. }
        | Line::Load { register, .. }
        | Line::Structure { register, .. }
        | Line::ListCell { register }
        | Line::PushNew { register }
        | Line::Fresh { register }
        | Line::Mark { register }
        | Line::Arith { register, .. }
        | Line::Eval { register, .. }
        | Line::Hole { register, .. } => Some(*register),
        _ => None,
    }
}

/// The registers that a line reads by their numbers, of which there are two at most.
pub fn read_registers(line: &Line) -> (Option<u16>, Option<u16>) {
    match line {
        Line::Move { from, .. } | Line::Deref { from, .. } | Line::Load { from, .. } => {
            (source_register(*from), None)
        }
        Line::Bind { register, with }
        | Line::Unify { register, with }
        | Line::Fill { register, with } => (Some(*register), source_register(*with)),
        Line::Switch { register, .. }
        | Line::Match { register, .. }
        | Line::Functor { register, .. } => (Some(*register), None),
        Line::Push(word) | Line::Cut(word) | Line::Raise(word) => (source_register(*word), None),
        Line::Eval { expression, .. } => (source_register(*expression), None),
        Line::Arith { left, right, .. }
        | Line::Less { left, right, .. }
        | Line::Same { left, right, .. } => (source_register(*left), source_register(*right)),
        _ => (None, None),
    }
}

/// Whether a line sets or reads a register. A push sets that of its structure or list cell too, which is not looked at here.
pub fn uses_register(line: &Line, register: u16) -> bool {
    let used = Some(register);
    let (first, second) = read_registers(line);
    set_register(line) == used
        || first == used
        || second == used
        || (matches!(line, Line::Builtin(_)) && register < MOST_ARGUMENTS)
}

fn source_register(source: Source) -> Option<u16> {
    match source {
        Source::Register(number) => Some(number),
        _ => None,
    }
}
