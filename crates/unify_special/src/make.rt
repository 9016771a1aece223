ghost use Rattle.std.specs.Prelude.{◌≡◌, length, ◌≤◌, ◌+◌};
ghost use Rattle.unify_special.specs.Steps.{moves_of, moves_of_line, step_of, steps_of};

use crate::draft::Draft;
use crate::fact_types::hole_type;
use crate::ground_pool::GroundPool;
use crate::introduce::introduce_all;
use crate::operand::{constant_source, is_boxed, move_to, operand, register_of};
use crate::pattern::{Node, after, pattern_of};
use crate::picture::Picture;
use aq_term::atom::Atom;
use aq_term::functor::Functor;
use aq_term::memory::Memory;
use aq_term::term::Term;
use bam_code::line::Line;
use bam_code::source::Source;
use flow_equations::env::see;
use flow_equations::occurrences::term_variables;
use std::alloc::Global;
use type_lattice::fact::Fact;

/// Makes a term in a register: a compound with its parts first, another term by a move. Those of its variables that are out get
/// registers and may be anything behind it. A variable that has a value and stands nowhere gets a hole, which a later call is passed.
///
/// The call goes as deep in the stack as the term is deep.
pub fn make_term(
    alloc: Global,
    term: &Term,
    into: u16,
    picture: &mut Picture,
    pool: &mut GroundPool,
    draft: &mut Draft,
) -> Result<(), Memory>
    ensures facts { length picture.new.facts ≡ length picture.old.facts }
    ensures places { length picture.new.places ≡ length picture.old.places }
    ensures steps { steps_of draft.new.lines ≡ steps_of draft.old.lines }
    ensures moves { moves_of draft.new.lines ≤ moves_of draft.old.lines + 1 }
{
    introduce_all(term_variables(alloc, term)?.as_slice(), picture, draft)?;
    let nodes = pattern_of(alloc, term, picture, pool, draft)?;
    match nodes.as_slice() {
        [Node::Constant(constant)] => draft.line(move_to(into, constant_source(*constant))),
        [Node::Ground(number)] => draft.line(move_to(into, Source::Pool(*number))),
        [Node::New(variable)] => make_variable(*variable, into, picture, draft),
        [Node::Known(variable) | Node::Passed(variable)] => draft.line(move_to(
            into,
            operand(picture, *variable),
        )),
        _ => make_compound(nodes.as_slice(), 0, into, picture, draft),
    }
}

/// Makes a variable that is out.
fn make_variable(
    variable: u32,
    into: u16,
    picture: &mut Picture,
    draft: &mut Draft,
) -> Result<(), Memory>
    ensures facts { length picture.new.facts ≡ length picture.old.facts }
    ensures places { length picture.new.places ≡ length picture.old.places }
    ensures steps { steps_of draft.new.lines ≡ steps_of draft.old.lines }
    ensures moves { moves_of draft.new.lines ≤ moves_of draft.old.lines + 1 }
{
    let register = register_of(picture, variable);
    draft.line(Line::Fresh { register })?;
    see(&mut picture.facts, variable);
    draft.line(move_to(into, Source::Register(register)))
}

/// Makes the compound at a place of the nodes in a register.
#[cycle(make)]
pub fn make_compound(
    nodes: &[Node],
    at: usize,
    into: u16,
    picture: &mut Picture,
    draft: &mut Draft,
) -> Result<(), Memory>
    ensures facts { length picture.new.facts ≡ length picture.old.facts }
    ensures places { length picture.new.places ≡ length picture.old.places }
    ensures steps { steps_of draft.new.lines ≡ steps_of draft.old.lines }
    ensures moves { moves_of draft.new.lines ≡ moves_of draft.old.lines }
{
    let Some(Node::Compound(functor, _)) = nodes.get(at) else {
        return Ok(());
    };
    let free = draft.register;
    make_parts(nodes, at + 1, functor.arity, picture, draft)?;
    draft.line(begun(into, *functor))?;
    push_parts(nodes, at + 1, functor.arity, free, picture, draft)?;
    draft.register = free;
    Ok(())
}

/// Makes those arguments that have to be made before the compound is begun, each in the next free register.
#[cycle(make)]
fn make_parts(
    nodes: &[Node],
    first: usize,
    count: u8,
    picture: &mut Picture,
    draft: &mut Draft,
) -> Result<(), Memory>
    ensures facts { length picture.new.facts ≡ length picture.old.facts }
    ensures places { length picture.new.places ≡ length picture.old.places }
    ensures steps { steps_of draft.new.lines ≡ steps_of draft.old.lines }
    ensures moves { moves_of draft.new.lines ≡ moves_of draft.old.lines }
{
    let mut at = first;
    for _ in 0..count {
        make_part(nodes, at, picture, draft)?;
        at = after(nodes, at);
    }
    Ok(())
}

#[cycle(make)]
fn make_part(
    nodes: &[Node],
    at: usize,
    picture: &mut Picture,
    draft: &mut Draft,
) -> Result<(), Memory>
    ensures facts { length picture.new.facts ≡ length picture.old.facts }
    ensures places { length picture.new.places ≡ length picture.old.places }
    ensures steps { steps_of draft.new.lines ≡ steps_of draft.old.lines }
    ensures moves { moves_of draft.new.lines ≡ moves_of draft.old.lines }
{
    match nodes.get(at) {
        Some(Node::Compound(_, _)) => {
            let register = draft.take_register();
            make_compound(nodes, at, register, picture, draft)
        }
        Some(Node::Known(variable)) if is_boxed_full(picture, *variable) => {
            let register = draft.take_register();
            draft.line(Line::Deref {
                register,
                from: operand(picture, *variable),
            })
        }
        _ => Ok(()),
    }
}

/// Whether a variable is full and boxed. A compound is full only where it gets such a value out of its cell.
fn is_boxed_full(picture: &Picture, variable: u32) -> bool {
    is_boxed(picture, variable) && picture.facts.fact(variable) == Fact::Full
}

/// The line that begins a compound.
fn begun(register: u16, functor: Functor) -> Line
    ensures steps { step_of result ≡ None }
    ensures moves { moves_of_line result ≡ 0 }
{
    if is_list_cell(functor) {
        Line::ListCell { register }
    } else {
        Line::Structure { register, functor }
    }
}

/// Whether a compound of this functor is a list cell.
pub fn is_list_cell(functor: Functor) -> bool {
    functor.name == Atom::LIST && functor.arity == 2
}

/// Pushes the arguments of a compound. Those that were made before stand in registers from one on.
fn push_parts(
    nodes: &[Node],
    first: usize,
    count: u8,
    made: u16,
    picture: &mut Picture,
    draft: &mut Draft,
) -> Result<(), Memory>
    ensures facts { length picture.new.facts ≡ length picture.old.facts }
    ensures places { length picture.new.places ≡ length picture.old.places }
    ensures steps { steps_of draft.new.lines ≡ steps_of draft.old.lines }
    ensures moves { moves_of draft.new.lines ≡ moves_of draft.old.lines }
{
    let mut at = first;
    let mut made = made;
    for _ in 0..count {
        if let Some(node) = nodes.get(at) {
            made = push_part(*node, made, picture, draft)?;
        }
        at = after(nodes, at);
    }
    Ok(())
}

/// Pushes an argument, out of this register where it was made before. Answers the register of the next one that was.
fn push_part(node: Node, made: u16, picture: &mut Picture, draft: &mut Draft) -> Result<u16, Memory>
    ensures facts { length picture.new.facts ≡ length picture.old.facts }
    ensures places { length picture.new.places ≡ length picture.old.places }
    ensures steps { steps_of draft.new.lines ≡ steps_of draft.old.lines }
    ensures moves { moves_of draft.new.lines ≡ moves_of draft.old.lines }
{
    match node {
        Node::Compound(_, _) => return push_made(made, draft),
        Node::Known(variable) if is_boxed_full(picture, variable) => return push_made(made, draft),
        Node::Known(variable) => draft.line(Line::Push(operand(picture, variable)))?,
        Node::Constant(constant) => draft.line(Line::Push(constant_source(constant)))?,
        Node::Ground(number) => draft.line(Line::Push(Source::Pool(number)))?,
        Node::Passed(variable) => push_hole(variable, picture, draft)?,
        Node::New(variable) => push_new(variable, picture, draft)?,
        Node::Void => push_void(draft)?,
    }
    Ok(made)
}

fn push_made(register: u16, draft: &mut Draft) -> Result<u16, Memory>
    ensures steps { steps_of draft.new.lines ≡ steps_of draft.old.lines }
    ensures moves { moves_of draft.new.lines ≡ moves_of draft.old.lines }
{
    draft.line(Line::Push(Source::Register(register)))?;
    Ok(register.saturating_add(1))
}

fn push_hole(variable: u32, picture: &Picture, draft: &mut Draft) -> Result<(), Memory>
    ensures steps { steps_of draft.new.lines ≡ steps_of draft.old.lines }
    ensures moves { moves_of draft.new.lines ≡ moves_of draft.old.lines }
{
    draft.line(Line::Hole {
        register: register_of(picture, variable),
        holds: hole_type(picture.facts.fact(variable)),
    })
}

/// Pushes a variable for whose value nobody asks.
fn push_void(draft: &mut Draft) -> Result<(), Memory>
    ensures steps { steps_of draft.new.lines ≡ steps_of draft.old.lines }
    ensures moves { moves_of draft.new.lines ≡ moves_of draft.old.lines }
{
    let register = draft.take_register();
    draft.line(Line::PushNew { register })?;
    draft.register = register;
    Ok(())
}

/// Pushes a variable that is out, which may be anything from then on.
fn push_new(variable: u32, picture: &mut Picture, draft: &mut Draft) -> Result<(), Memory>
    ensures facts { length picture.new.facts ≡ length picture.old.facts }
    ensures places { length picture.new.places ≡ length picture.old.places }
    ensures steps { steps_of draft.new.lines ≡ steps_of draft.old.lines }
    ensures moves { moves_of draft.new.lines ≡ moves_of draft.old.lines }
{
    draft.line(Line::PushNew {
        register: register_of(picture, variable),
    })?;
    see(&mut picture.facts, variable);
    Ok(())
}
