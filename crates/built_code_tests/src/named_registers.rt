use bam_code::item::Item;
use bam_code::line::Line;
use bam_code::place::Place;
use bam_code::source::Source;
use std::alloc::Global;
use std::test::Fail;

/// The registers that a line names, an item of a label among them.
pub fn named_registers(alloc: Global, line: &Line) -> Result<Vec<u16>, Fail> {
    let mut registers = Vec::new(alloc);
    for register in [
        own(line),
        first(line).and_then(of_source),
        second(line).and_then(of_source),
    ] {
        if let Some(number) = register {
            registers.push(number)?;
        }
    }
    if let Line::Label { items, .. } | Line::Alt { items, .. } | Line::Ball { items, .. } = line {
        for item in items.as_slice() {
            if let Item::Place {
                place: Place::Register(number),
                ..
            } = item
            {
                registers.push(*number)?;
            }
        }
    }
    Ok(registers)
}

fn of_source(source: Source) -> Option<u16> {
    match source {
        Source::Register(number) => Some(number),
        _ => None,
    }
}

/// The register that a line's first operand is.
fn own(line: &Line) -> Option<u16> {
    match line {
        Line::Move {
            into: Place::Register(register),
            ..
        }
        | Line::Deref { register, .. }
        | Line::Load { register, .. }
        | Line::Structure { register, .. }
        | Line::ListCell { register }
        | Line::PushNew { register }
        | Line::Fresh { register }
        | Line::Bind { register, .. }
        | Line::Unify { register, .. }
        | Line::Switch { register, .. }
        | Line::Match { register, .. }
        | Line::Functor { register, .. }
        | Line::Mark { register }
        | Line::Arith { register, .. }
        | Line::Eval { register, .. }
        | Line::Hole { register, .. }
        | Line::Fill { register, .. } => Some(*register),
        _ => None,
    }
}

/// The first place that a line reads and that need not be a register.
fn first(line: &Line) -> Option<Source> {
    match line {
        Line::Move { from, .. } | Line::Deref { from, .. } | Line::Load { from, .. } => Some(*from),
        Line::Push(source) | Line::Cut(source) | Line::Raise(source) => Some(*source),
        Line::Bind { with, .. } | Line::Unify { with, .. } | Line::Fill { with, .. } => Some(*with),
        Line::Arith { left, .. } | Line::Less { left, .. } | Line::Same { left, .. } => Some(*left),
        Line::Eval { expression, .. } => Some(*expression),
        _ => None,
    }
}

/// The second one.
fn second(line: &Line) -> Option<Source> {
    match line {
        Line::Arith { right, .. } | Line::Less { right, .. } | Line::Same { right, .. } => Some(
            *right,
        ),
        _ => None,
    }
}
