//! Copies of lines, with other numbers for pool entries.

use aq_term::memory::Memory;
use bam_code::items::Items;
use bam_code::line::Line;
use bam_code::lines::Lines;
use bam_code::source::Source;
use std::alloc::Global;

/// A source whose pool entry has the number that a table gives.
fn renumbered_source(source: &Source, numbers: &[u32]) -> Source {
    match source {
        Source::Pool(number) => match numbers.get(*number as usize) {
            Some(new) => Source::Pool(*new),
            None => *source,
        },
        _ => *source,
    }
}

fn copy_items(alloc: Global, items: &Items) -> Result<Items, Memory> {
    Ok(Items::from_vec(items.as_slice().to_vec(alloc)?))
}

/// A copy of a label, an alternative or the label of a ball, or none of another line.
fn copy_label(alloc: Global, line: &Line) -> Result<Option<Line>, Memory> {
    Ok(match line {
        Line::Label {
            number,
            frame,
            items,
        } => Some(Line::Label {
            number: *number,
            frame: *frame,
            items: copy_items(alloc, items)?,
        }),
        Line::Alt {
            number,
            frame,
            items,
        } => Some(Line::Alt {
            number: *number,
            frame: *frame,
            items: copy_items(alloc, items)?,
        }),
        Line::Ball {
            number,
            frame,
            items,
        } => Some(Line::Ball {
            number: *number,
            frame: *frame,
            items: copy_items(alloc, items)?,
        }),
        _ => None,
    })
}

/// A copy of a line that reads one word after a register or a place, or none of another line.
fn copy_with_one(line: &Line, numbers: &[u32]) -> Option<Line> {
    match line {
        Line::Move { into, from } => Some(Line::Move {
            into: *into,
            from: renumbered_source(from, numbers),
        }),
        Line::Deref { register, from } => Some(Line::Deref {
            register: *register,
            from: renumbered_source(from, numbers),
        }),
        Line::Load {
            register,
            from,
            cell,
        } => Some(Line::Load {
            register: *register,
            from: renumbered_source(from, numbers),
            cell: *cell,
        }),
        Line::Bind { register, with } => Some(Line::Bind {
            register: *register,
            with: renumbered_source(with, numbers),
        }),
        Line::Unify { register, with } => Some(Line::Unify {
            register: *register,
            with: renumbered_source(with, numbers),
        }),
        Line::Fill { register, with } => Some(Line::Fill {
            register: *register,
            with: renumbered_source(with, numbers),
        }),
        Line::Eval {
            register,
            expression,
        } => Some(Line::Eval {
            register: *register,
            expression: renumbered_source(expression, numbers),
        }),
        _ => None,
    }
}

/// A copy of a line that reads two words, or one word alone, or none of another line.
fn copy_with_words(line: &Line, numbers: &[u32]) -> Option<Line> {
    match line {
        Line::Arith {
            operation,
            register,
            left,
            right,
        } => Some(Line::Arith {
            operation: *operation,
            register: *register,
            left: renumbered_source(left, numbers),
            right: renumbered_source(right, numbers),
        }),
        Line::Less {
            comparison,
            left,
            right,
        } => Some(Line::Less {
            comparison: *comparison,
            left: renumbered_source(left, numbers),
            right: renumbered_source(right, numbers),
        }),
        Line::Same {
            sameness,
            left,
            right,
        } => Some(Line::Same {
            sameness: *sameness,
            left: renumbered_source(left, numbers),
            right: renumbered_source(right, numbers),
        }),
        Line::Push(from) => Some(Line::Push(renumbered_source(from, numbers))),
        Line::Cut(from) => Some(Line::Cut(renumbered_source(from, numbers))),
        Line::Raise(from) => Some(Line::Raise(renumbered_source(from, numbers))),
        _ => None,
    }
}

/// A copy of a line that goes somewhere, or none of another line.
fn copy_jump(line: &Line) -> Option<Line> {
    match line {
        Line::Jump(target) => Some(Line::Jump(*target)),
        Line::Retry(target) => Some(Line::Retry(*target)),
        Line::Switch {
            register,
            reference,
            atom,
            integer,
            list,
            structure,
        } => Some(Line::Switch {
            register: *register,
            reference: *reference,
            atom: *atom,
            integer: *integer,
            list: *list,
            structure: *structure,
        }),
        Line::Match {
            register,
            constant,
            other,
        } => Some(Line::Match {
            register: *register,
            constant: *constant,
            other: *other,
        }),
        Line::Functor {
            register,
            functor,
            other,
        } => Some(Line::Functor {
            register: *register,
            functor: *functor,
            other: *other,
        }),
        Line::Try {
            registers,
            alternative,
        } => Some(Line::Try {
            registers: *registers,
            alternative: *alternative,
        }),
        Line::Catch { registers, ball } => Some(Line::Catch {
            registers: *registers,
            ball: *ball,
        }),
        _ => None,
    }
}

/// A copy of a line that names at most a register, a procedure, a number or a built-in, or none of another line.
fn copy_plain(line: &Line) -> Option<Line> {
    match line {
        Line::Structure { register, functor } => Some(Line::Structure {
            register: *register,
            functor: *functor,
        }),
        Line::ListCell { register } => Some(Line::ListCell {
            register: *register,
        }),
        Line::PushNew { register } => Some(Line::PushNew {
            register: *register,
        }),
        Line::Fresh { register } => Some(Line::Fresh {
            register: *register,
        }),
        Line::Mark { register } => Some(Line::Mark {
            register: *register,
        }),
        Line::Hole { register, holds } => Some(Line::Hole {
            register: *register,
            holds: *holds,
        }),
        Line::Call(name) => Some(Line::Call(*name)),
        Line::Exec(name) => Some(Line::Exec(*name)),
        Line::Allocate(size) => Some(Line::Allocate(*size)),
        Line::Builtin(builtin) => Some(Line::Builtin(*builtin)),
        Line::Return => Some(Line::Return),
        Line::Deallocate => Some(Line::Deallocate),
        Line::Trust => Some(Line::Trust),
        Line::Uncatch => Some(Line::Uncatch),
        Line::Fail => Some(Line::Fail),
        _ => None,
    }
}

/// A copy of a line whose pool entries have the numbers that a table gives.
fn renumbered_line(alloc: Global, line: &Line, numbers: &[u32]) -> Result<Line, Memory> {
    if let Some(copy) = copy_label(alloc, line)? {
        return Ok(copy);
    }
    let copy = copy_with_one(line, numbers)
        .or(copy_with_words(line, numbers))
        .or(copy_jump(line))
        .or(copy_plain(line));
    copy.ok_or(Memory)
}

/// A copy of lines whose pool entries have the numbers that a table gives.
pub fn renumbered(alloc: Global, lines: &[Line], numbers: &[u32]) -> Result<Lines, Memory> {
    let mut copies = Lines::new(alloc);
    for line in lines {
        copies.push(renumbered_line(alloc, line, numbers)?)?;
    }
    Ok(copies)
}
