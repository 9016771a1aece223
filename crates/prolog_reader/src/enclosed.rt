ghost use Rattle.std.specs.Prelude.{◌≡◌, IfOk};
ghost use Rattle.prolog_reader.specs.Terms.{unary, binary, both};
ghost use Rattle.prolog_reader.specs.Frames.{frames_of};
ghost use Rattle.prolog_reader.specs.Machine.{enclose_of, begun, fits};

use crate::built::{Built, Measured};
use crate::frame::Frame;
use crate::operand::Operand;
use crate::stack::Stack;
use crate::symbol::InfixLimits;
use aq_term::args::Args;
use aq_term::atom::Atom;
use aq_term::memory::Memory;
use aq_term::term::Term;
use std::alloc::Global;

/// A term that ends where it stands, and the frame in which it stands, or `None` for the whole text.
#[derive(Debug, Drop)]
pub struct Enclosed {
    pub frame: Option<Frame>,
    pub built: Built,
}

/// The compound of this name and one argument.
pub fn unary(alloc: Global, name: Atom, argument: Built) -> Result<Built, Memory>
    ensures { IfOk result (λ b. b ≡ unary name argument) }
{
    match argument {
        Built::Faulty(fault) => Ok(Built::Faulty(fault)),
        Built::Whole(Measured { term, depth }) => {
            let args = Args::from_vec(vec![in alloc; term]?);
            let depth = depth.saturating_add(1);
            Ok(Built::of_depth(Term::Compound(name, args), depth))
        }
    }
}

/// The compound of this name and two arguments.
pub fn binary(alloc: Global, name: Atom, left: Built, right: Built) -> Result<Built, Memory>
    ensures { IfOk result (λ b. b ≡ binary name left right) }
{
    match left {
        Built::Faulty(fault) => match right {
            Built::Faulty(other) => Ok(Built::Faulty(fault.and(other))),
            Built::Whole(_) => Ok(Built::Faulty(fault)),
        },
        Built::Whole(left) => match right {
            Built::Faulty(fault) => Ok(Built::Faulty(fault)),
            Built::Whole(right) => both(alloc, name, left, right),
        },
    }
}

/// The compound of this name and two terms.
fn both(alloc: Global, name: Atom, left: Measured, right: Measured) -> Result<Built, Memory>
    ensures { IfOk result (λ b. b ≡ both name left right) }
{
    let depth = left.depth.max(right.depth).saturating_add(1);
    let Measured {
        term: first,
        depth: _,
    } = left;
    let Measured {
        term: second,
        depth: _,
    } = right;
    let args = Args::from_vec(vec![in alloc; first, second]?);
    Ok(Built::of_depth(Term::Compound(name, args), depth))
}

/// Ends the term at the operand: every operator that was begun in it takes its operand.
pub fn enclose(alloc: Global, stack: &mut Stack, operand: Operand) -> Result<Enclosed, Memory>
    ensures { IfOk result (λ e. enclose_of (frames_of stack.old) operand.built ≡ (e, (frames_of stack.new))) }
{
    let Operand { built, priority: _ } = operand;
    let mut built = built;
    while let Some(frame) = stack.pop() {
        match frame {
            Frame::Infix { name, left, .. } => built = binary(alloc, name, left, built)?,
            Frame::Prefix { name, .. } => built = unary(alloc, name, built)?,
            frame => {
                return Ok(Enclosed {
                    frame: Some(frame),
                    built,
                });
            }
        }
    }
    Ok(Enclosed { frame: None, built })
}

/// Whether the operator may follow an operand of this priority, where a term of priority at most
/// `most` is due.
fn fits(limits: InfixLimits, left: u16, most: u16) -> bool
    ensures { result ≡ fits limits left most }
{
    limits.priority <= most && left <= limits.left
}

/// Puts an infix operator behind the operand. Operators that bind more strongly take their operands
/// before. Where no operator of the term lets this one follow, the term ends and is the answer.
pub fn begin_infix(
    alloc: Global,
    stack: &mut Stack,
    operand: Operand,
    name: Atom,
    limits: InfixLimits,
) -> Result<Option<Enclosed>, Memory>
    ensures { IfOk result (λ e. begun name limits operand.priority (frames_of stack.old) operand.built ≡ (e, (frames_of stack.new))) }
{
    let Operand { built, priority } = operand;
    let mut built = built;
    let mut left = priority;
    while !fits(limits, left, stack.most()) {
        match stack.pop() {
            Some(
                Frame::Infix {
                    name,
                    priority,
                    left: before,
                    ..
                },
            ) => {
                built = binary(alloc, name, before, built)?;
                left = priority;
            }
            Some(Frame::Prefix { name, priority, .. }) => {
                built = unary(alloc, name, built)?;
                left = priority;
            }
            frame => return Ok(Some(Enclosed { frame, built })),
        }
    }
    stack.push(Frame::Infix {
        name,
        priority: limits.priority,
        most: limits.right,
        left: built,
    })?;
    Ok(None)
}
