ghost use Rattle.std.specs.Prelude.{◌≡◌, length};
ghost use Rattle.unify_special.specs.Steps.{moves_of, moves_of_line, step_of, steps_of};

use crate::base::{Base, Parts};
use crate::draft::Draft;
use crate::make::{is_list_cell, make_compound};
use crate::open_label::open_label;
use crate::opened::Opened;
use crate::pattern::{Node, after, forget, part};
use crate::picture::Picture;
use crate::read_part::{load, read_constant, read_ground, read_known, read_new};
use aq_term::functor::Functor;
use aq_term::memory::Memory;
use bam_code::line::Line;
use bam_code::signature::Signature;
use bam_code::source::Source;
use bam_code::switch_target::SwitchTarget;
use bam_code::target::Target;
use bam_code::word_type::WordType;
use flow_equations::env::learn;
use type_lattice::fact::Fact;

/// Unifies a register, which holds no reference, with the compound at a place of the nodes.
#[cycle(read)]
pub fn read_compound(
    nodes: &[Node],
    at: usize,
    base: Base,
    signature: &Signature,
    picture: &mut Picture,
    draft: &mut Draft,
) -> Result<(), Memory>
    ensures facts { length picture.new.facts ≡ length picture.old.facts }
    ensures places { length picture.new.places ≡ length picture.old.places }
    ensures steps { steps_of draft.new.lines ≡ steps_of draft.old.lines }
    ensures moves { moves_of draft.new.lines ≡ moves_of draft.old.lines }
{
    let Some(Node::Compound(functor, _)) = nodes.get(at) else {
        return Ok(());
    };
    if is_list_cell(*functor) {
        test_list(base, signature, picture, draft)?;
    } else {
        test_structure(base, *functor, signature, picture, draft)?;
    }
    read_arguments(nodes, at + 1, *functor, base, signature, picture, draft)
}

/// Unifies a register, which holds a reference to an unbound cell or none, with the compound at a place of the nodes.
#[cycle(read)]
pub fn read_or_make(
    nodes: &[Node],
    at: usize,
    base: Base,
    signature: &Signature,
    picture: &mut Picture,
    draft: &mut Draft,
) -> Result<(), Memory>
    ensures facts { length picture.new.facts ≡ length picture.old.facts }
    ensures places { length picture.new.places ≡ length picture.old.places }
    ensures steps { steps_of draft.new.lines ≡ steps_of draft.old.lines }
    ensures moves { moves_of draft.new.lines ≡ moves_of draft.old.lines }
{
    let Some(Node::Compound(functor, _)) = nodes.get(at) else {
        return Ok(());
    };
    let write = draft.take_label();
    let read = read_label(*functor, draft);
    let join = draft.take_label();
    draft.line(compound_switch(base.register, *functor, write, read))?;
    open_label(write, base, WordType::Var, signature, picture, draft)?;
    draft.close();
    bind_made(nodes, at, base.register, picture, draft)?;
    draft.line(Line::Jump(Target::Label(join)))?;
    forget(part(nodes, at), picture);
    if let Some(variable) = base.learns {
        learn(&mut picture.facts, variable, Fact::Nonvar);
    }
    open_read(read, base, *functor, signature, picture, draft)?;
    read_arguments(nodes, at + 1, *functor, base, signature, picture, draft)?;
    draft.label(join, signature, picture)
}

/// Reads the arguments of a compound of this functor, whose register is looked into until the last one is loaded.
#[cycle(read)]
fn read_arguments(
    nodes: &[Node],
    first: usize,
    functor: Functor,
    base: Base,
    signature: &Signature,
    picture: &mut Picture,
    draft: &mut Draft,
) -> Result<(), Memory>
    ensures facts { length picture.new.facts ≡ length picture.old.facts }
    ensures places { length picture.new.places ≡ length picture.old.places }
    ensures steps { steps_of draft.new.lines ≡ steps_of draft.old.lines }
    ensures moves { moves_of draft.new.lines ≡ moves_of draft.old.lines }
{
    let mut at = first;
    for number in 1..=functor.arity {
        if number == functor.arity {
            draft.close();
        }
        let cell = cell_of(functor, number);
        read_argument(nodes, at, cell, base, signature, picture, draft)?;
        at = after(nodes, at);
    }
    Ok(())
}

/// Reads one argument. The temporary registers that it takes are given back.
#[cycle(read)]
fn read_argument(
    nodes: &[Node],
    at: usize,
    cell: u8,
    base: Base,
    signature: &Signature,
    picture: &mut Picture,
    draft: &mut Draft,
) -> Result<(), Memory>
    ensures facts { length picture.new.facts ≡ length picture.old.facts }
    ensures places { length picture.new.places ≡ length picture.old.places }
    ensures steps { steps_of draft.new.lines ≡ steps_of draft.old.lines }
    ensures moves { moves_of draft.new.lines ≡ moves_of draft.old.lines }
{
    let Some(node) = nodes.get(at) else {
        return Ok(());
    };
    let free = draft.register;
    match node {
        Node::New(variable) => read_new(*variable, cell, base, picture, draft)?,
        Node::Void => {}
        Node::Known(variable) | Node::Passed(variable) => {
            read_known(*variable, cell, base, picture, draft)?;
        }
        Node::Constant(constant) => {
            read_constant(*constant, cell, base, signature, picture, draft)?;
        }
        Node::Ground(number) => read_ground(*number, cell, base, draft)?,
        Node::Compound(_, _) => read_nested(nodes, at, cell, base, signature, picture, draft)?,
    }
    draft.register = free;
    Ok(())
}

/// Reads an argument that is a compound with variables.
#[cycle(read)]
fn read_nested(
    nodes: &[Node],
    at: usize,
    cell: u8,
    base: Base,
    signature: &Signature,
    picture: &mut Picture,
    draft: &mut Draft,
) -> Result<(), Memory>
    ensures facts { length picture.new.facts ≡ length picture.old.facts }
    ensures places { length picture.new.places ≡ length picture.old.places }
    ensures steps { steps_of draft.new.lines ≡ steps_of draft.old.lines }
    ensures moves { moves_of draft.new.lines ≡ moves_of draft.old.lines }
{
    let register = load(cell, base, draft)?;
    let inner = base.part(register);
    if base.parts != Parts::Full {
        draft.line(Line::Deref {
            register,
            from: Source::Register(register),
        })?;
    }
    match base.parts {
        Parts::Any => read_or_make(nodes, at, inner, signature, picture, draft),
        Parts::Full | Parts::Ground => {
            read_compound(nodes, at, inner, signature, picture, draft)
        }
    }
}

/// The number of the cell of an argument, which is counted from 1. A structure has its functor in cell 0, a list cell has none.
fn cell_of(functor: Functor, argument: u8) -> u8 {
    if is_list_cell(functor) {
        argument.saturating_sub(1)
    } else {
        argument
    }
}

/// Makes a compound, and makes the unbound cell of a register equal to it.
pub fn bind_made(
    nodes: &[Node],
    at: usize,
    register: u16,
    picture: &mut Picture,
    draft: &mut Draft,
) -> Result<(), Memory>
    ensures facts { length picture.new.facts ≡ length picture.old.facts }
    ensures places { length picture.new.places ≡ length picture.old.places }
    ensures steps { steps_of draft.new.lines ≡ steps_of draft.old.lines }
    ensures moves { moves_of draft.new.lines ≡ moves_of draft.old.lines }
{
    let made = draft.take_register();
    make_compound(nodes, at, made, picture, draft)?;
    draft.line(Line::Bind {
        register,
        with: Source::Register(made),
    })?;
    draft.register = made;
    Ok(())
}

/// Goes on by whether a word is unbound or of the functor's kind, and fails else.
fn compound_switch(register: u16, functor: Functor, write: u32, read: u32) -> Line
    ensures steps { step_of result ≡ None }
    ensures moves { moves_of_line result ≡ 0 }
{
    let (list, structure) = targets(functor, read);
    Line::Switch {
        register,
        reference: SwitchTarget::Label(write),
        atom: Target::Fails,
        integer: Target::Fails,
        list,
        structure,
    }
}

/// Where a switch goes with list cells and with structures, to go on with compounds of this functor alone.
fn targets(functor: Functor, read: u32) -> (Target, Target) {
    if is_list_cell(functor) {
        (Target::Label(read), Target::Fails)
    } else {
        (Target::Fails, Target::Label(read))
    }
}

/// The label at which a switch goes on with a list cell, behind which nothing is left to test, or with a structure.
fn read_label(functor: Functor, draft: &mut Draft) -> u32
    ensures { draft.new.lines ≡ draft.old.lines }
{
    if is_list_cell(functor) {
        draft.take_tested()
    } else {
        draft.take_label()
    }
}

/// The label at which a switch goes on with a list cell or a structure, and the test of the structure's functor.
fn open_read(
    number: u32,
    base: Base,
    functor: Functor,
    signature: &Signature,
    picture: &Picture,
    draft: &mut Draft,
) -> Result<(), Memory>
    ensures steps { steps_of draft.new.lines ≡ steps_of draft.old.lines }
    ensures moves { moves_of draft.new.lines ≡ moves_of draft.old.lines }
{
    if is_list_cell(functor) {
        return open_label(
            number,
            base,
            base.parts.list_type(),
            signature,
            picture,
            draft,
        );
    }
    open_label(number, base, WordType::Direct, signature, picture, draft)?;
    draft.close();
    test_structure(base, functor, signature, picture, draft)
}

/// Goes on where a register, which holds no reference, holds a structure of this functor.
fn test_structure(
    base: Base,
    functor: Functor,
    signature: &Signature,
    picture: &Picture,
    draft: &mut Draft,
) -> Result<(), Memory>
    ensures steps { steps_of draft.new.lines ≡ steps_of draft.old.lines }
    ensures moves { moves_of draft.new.lines ≡ moves_of draft.old.lines }
{
    draft.line(Line::Functor {
        register: base.register,
        functor,
        other: Target::Fails,
    })?;
    draft.open(Opened {
        register: base.register,
        holds: base.parts.structure_type(functor),
        mark: base.mark,
    })?;
    draft.label_tested(signature, picture)
}

/// Goes on where a register, which holds no reference, holds a list cell.
fn test_list(
    base: Base,
    signature: &Signature,
    picture: &Picture,
    draft: &mut Draft,
) -> Result<(), Memory>
    ensures steps { steps_of draft.new.lines ≡ steps_of draft.old.lines }
    ensures moves { moves_of draft.new.lines ≡ moves_of draft.old.lines }
{
    let read = draft.take_tested();
    draft.line(Line::Switch {
        register: base.register,
        reference: SwitchTarget::Never,
        atom: Target::Fails,
        integer: Target::Fails,
        list: Target::Label(read),
        structure: Target::Fails,
    })?;
    open_label(
        read,
        base,
        base.parts.list_type(),
        signature,
        picture,
        draft,
    )
}
