use crate::fault::LineFault;
use crate::fields::Fields;
use crate::items_text::items;
use crate::names::{functor, name};
use crate::scope::Scope;
use crate::{operands, words};
use aq_term::atoms::Atoms;
use aq_term::proc_name::ProcName;
use bam_code::constant::Constant;
use bam_code::items::Items;
use bam_code::line::Line;
use bam_code::place::Place;
use bam_code::source::Source;
use bam_code::target::Target;
use std::alloc::Global;

/// Reads a line of a procedure, up to its end.
pub fn line(
    alloc: Global,
    fields: &mut Fields<'_>,
    atoms: &mut Atoms,
    scope: &Scope<'_>,
) -> Result<Line, LineFault> {
    let word = fields.word();
    let line = match word {
        b"label" => label(alloc, fields, atoms, scope)?,
        b"alt" => alt(alloc, fields, atoms, scope)?,
        b"ball" => ball(alloc, fields, atoms, scope)?,
        b"move" => move_(alloc, fields, atoms, scope)?,
        b"deref" => deref(alloc, fields, atoms, scope)?,
        b"load" => load(alloc, fields, atoms, scope)?,
        b"push" => push(alloc, fields, atoms, scope)?,
        b"bind" => bind(alloc, fields, atoms, scope)?,
        b"unify" => unify(alloc, fields, atoms, scope)?,
        b"fill" => fill(alloc, fields, atoms, scope)?,
        b"cut" => cut(alloc, fields, atoms, scope)?,
        b"eval" => eval(alloc, fields, atoms, scope)?,
        b"raise" => raise(alloc, fields, atoms, scope)?,
        b"arith" => arith(alloc, fields, atoms, scope)?,
        b"less" => less(alloc, fields, atoms, scope)?,
        b"same" => same(alloc, fields, atoms, scope)?,
        b"str" => structure(alloc, fields, atoms)?,
        b"match" => match_(alloc, fields, atoms)?,
        b"functor" => functor_(alloc, fields, atoms)?,
        b"builtin" => builtin(alloc, fields, atoms)?,
        b"call" => Line::Call(callee(alloc, fields, atoms)?),
        b"exec" => Line::Exec(callee(alloc, fields, atoms)?),
        b"lst" => list_cell(fields)?,
        b"push_new" => push_new(fields)?,
        b"fresh" => fresh(fields)?,
        b"mark" => mark(fields)?,
        b"hole" => hole(fields)?,
        b"jump" => Line::Jump(target(fields)?),
        b"retry" => Line::Retry(target(fields)?),
        b"switch" => switch(fields)?,
        b"allocate" => allocate(fields)?,
        b"try" => try_(fields)?,
        b"catch" => catch(fields)?,
        b"fail" => Line::Fail,
        b"return" => Line::Return,
        b"deallocate" => Line::Deallocate,
        b"trust" => Line::Trust,
        b"uncatch" => Line::Uncatch,
        _ => return Err(LineFault::Form),
    };
    fields.end()?;
    Ok(line)
}

// Each of these reads a space and then one operand.

fn register(fields: &mut Fields<'_>) -> Result<u16, LineFault> {
    fields.space()?;
    operands::register(fields)
}

fn target(fields: &mut Fields<'_>) -> Result<Target, LineFault> {
    fields.space()?;
    operands::target(fields)
}

fn source(
    alloc: Global,
    fields: &mut Fields<'_>,
    atoms: &mut Atoms,
    scope: &Scope<'_>,
) -> Result<Source, LineFault> {
    fields.space()?;
    operands::source(alloc, fields, atoms, scope.pool)
}

fn callee(
    alloc: Global,
    fields: &mut Fields<'_>,
    atoms: &mut Atoms,
) -> Result<ProcName, LineFault> {
    fields.space()?;
    name(alloc, fields, atoms)
}

/// What a label, an alternative and the label of a ball have.
#[derive(Debug, Drop)]
struct LabelFields {
    number: u32,
    frame: Option<u16>,
    items: Items,
}

fn label_fields(
    alloc: Global,
    fields: &mut Fields<'_>,
    atoms: &mut Atoms,
    scope: &Scope<'_>,
) -> Result<LabelFields, LineFault> {
    fields.space()?;
    let number = operands::label(fields)?;
    if u64::from(number) != scope.labels {
        return Err(LineFault::Form);
    }
    fields.space()?;
    let frame = operands::frame(fields)?;
    let items = items(alloc, fields, atoms, scope.args)?;
    Ok(LabelFields {
        number,
        frame,
        items,
    })
}

// Each of these reads the operands of the line of its name.

fn label(
    alloc: Global,
    fields: &mut Fields<'_>,
    atoms: &mut Atoms,
    scope: &Scope<'_>,
) -> Result<Line, LineFault> {
    let LabelFields {
        number,
        frame,
        items,
    } = label_fields(alloc, fields, atoms, scope)?;
    Ok(Line::Label {
        number,
        frame,
        items,
    })
}

fn alt(
    alloc: Global,
    fields: &mut Fields<'_>,
    atoms: &mut Atoms,
    scope: &Scope<'_>,
) -> Result<Line, LineFault> {
    let LabelFields {
        number,
        frame,
        items,
    } = label_fields(alloc, fields, atoms, scope)?;
    Ok(Line::Alt {
        number,
        frame,
        items,
    })
}

fn ball(
    alloc: Global,
    fields: &mut Fields<'_>,
    atoms: &mut Atoms,
    scope: &Scope<'_>,
) -> Result<Line, LineFault> {
    let LabelFields {
        number,
        frame,
        items,
    } = label_fields(alloc, fields, atoms, scope)?;
    Ok(Line::Ball {
        number,
        frame,
        items,
    })
}

fn move_(
    alloc: Global,
    fields: &mut Fields<'_>,
    atoms: &mut Atoms,
    scope: &Scope<'_>,
) -> Result<Line, LineFault> {
    fields.space()?;
    let into = operands::place(fields)?;
    let from = source(alloc, fields, atoms, scope)?;
    Ok(Line::Move { into, from })
}

fn deref(
    alloc: Global,
    fields: &mut Fields<'_>,
    atoms: &mut Atoms,
    scope: &Scope<'_>,
) -> Result<Line, LineFault> {
    let register = register(fields)?;
    let from = source(alloc, fields, atoms, scope)?;
    Ok(Line::Deref { register, from })
}

fn load(
    alloc: Global,
    fields: &mut Fields<'_>,
    atoms: &mut Atoms,
    scope: &Scope<'_>,
) -> Result<Line, LineFault> {
    let register = register(fields)?;
    let from = source(alloc, fields, atoms, scope)?;
    fields.space()?;
    let cell = fields.number(255)? as u8;
    Ok(Line::Load {
        register,
        from,
        cell,
    })
}

fn structure(alloc: Global, fields: &mut Fields<'_>, atoms: &mut Atoms) -> Result<Line, LineFault> {
    let register = register(fields)?;
    fields.space()?;
    let functor = functor(alloc, fields, atoms)?;
    Ok(Line::Structure { register, functor })
}

fn list_cell(fields: &mut Fields<'_>) -> Result<Line, LineFault> {
    let register = register(fields)?;
    Ok(Line::ListCell { register })
}

fn push(
    alloc: Global,
    fields: &mut Fields<'_>,
    atoms: &mut Atoms,
    scope: &Scope<'_>,
) -> Result<Line, LineFault> {
    Ok(Line::Push(source(alloc, fields, atoms, scope)?))
}

fn push_new(fields: &mut Fields<'_>) -> Result<Line, LineFault> {
    let register = register(fields)?;
    Ok(Line::PushNew { register })
}

fn fresh(fields: &mut Fields<'_>) -> Result<Line, LineFault> {
    let register = register(fields)?;
    Ok(Line::Fresh { register })
}

fn bind(
    alloc: Global,
    fields: &mut Fields<'_>,
    atoms: &mut Atoms,
    scope: &Scope<'_>,
) -> Result<Line, LineFault> {
    let register = register(fields)?;
    let with = source(alloc, fields, atoms, scope)?;
    Ok(Line::Bind { register, with })
}

fn unify(
    alloc: Global,
    fields: &mut Fields<'_>,
    atoms: &mut Atoms,
    scope: &Scope<'_>,
) -> Result<Line, LineFault> {
    let register = register(fields)?;
    let with = source(alloc, fields, atoms, scope)?;
    Ok(Line::Unify { register, with })
}

fn switch(fields: &mut Fields<'_>) -> Result<Line, LineFault> {
    let register = register(fields)?;
    named(fields, b"var")?;
    let reference = operands::switch_target(fields)?;
    named(fields, b"atm")?;
    let atom = operands::target(fields)?;
    named(fields, b"int")?;
    let integer = operands::target(fields)?;
    named(fields, b"lst")?;
    let list = operands::target(fields)?;
    named(fields, b"str")?;
    let structure = operands::target(fields)?;
    Ok(Line::Switch {
        register,
        reference,
        atom,
        integer,
        list,
        structure,
    })
}

/// Reads a space, this word and `=`.
fn named(fields: &mut Fields<'_>, word: &[u8]) -> Result<(), LineFault> {
    fields.space()?;
    if fields.word() != word {
        return Err(LineFault::Form);
    }
    fields.byte(b'=')
}

fn match_(alloc: Global, fields: &mut Fields<'_>, atoms: &mut Atoms) -> Result<Line, LineFault> {
    let register = register(fields)?;
    fields.space()?;
    let constant = operands::constant(alloc, fields, atoms)?;
    let other = target(fields)?;
    Ok(Line::Match {
        register,
        constant,
        other,
    })
}

fn functor_(alloc: Global, fields: &mut Fields<'_>, atoms: &mut Atoms) -> Result<Line, LineFault> {
    let register = register(fields)?;
    fields.space()?;
    let functor = functor(alloc, fields, atoms)?;
    let other = target(fields)?;
    Ok(Line::Functor {
        register,
        functor,
        other,
    })
}

fn allocate(fields: &mut Fields<'_>) -> Result<Line, LineFault> {
    fields.space()?;
    Ok(Line::Allocate(operands::slots(fields)?))
}

/// The most registers that a choice keeps.
const MOST_KEPT: u64 = 1024;

fn try_(fields: &mut Fields<'_>) -> Result<Line, LineFault> {
    fields.space()?;
    let registers = fields.number(MOST_KEPT)? as u16;
    let alternative = target(fields)?;
    Ok(Line::Try {
        registers,
        alternative,
    })
}

/// The most registers that a catcher keeps, since a ball comes into the next one.
const MOST_CAUGHT: u64 = 1023;

fn catch(fields: &mut Fields<'_>) -> Result<Line, LineFault> {
    fields.space()?;
    let registers = fields.number(MOST_CAUGHT)? as u16;
    let ball = target(fields)?;
    Ok(Line::Catch { registers, ball })
}

fn mark(fields: &mut Fields<'_>) -> Result<Line, LineFault> {
    let register = register(fields)?;
    Ok(Line::Mark { register })
}

fn cut(
    alloc: Global,
    fields: &mut Fields<'_>,
    atoms: &mut Atoms,
    scope: &Scope<'_>,
) -> Result<Line, LineFault> {
    Ok(Line::Cut(source(alloc, fields, atoms, scope)?))
}

fn arith(
    alloc: Global,
    fields: &mut Fields<'_>,
    atoms: &mut Atoms,
    scope: &Scope<'_>,
) -> Result<Line, LineFault> {
    fields.space()?;
    let operation = words::arith_op_of(fields.word()).ok_or(LineFault::Form)?;
    let register = register(fields)?;
    let left = source(alloc, fields, atoms, scope)?;
    let right = source(alloc, fields, atoms, scope)?;
    Ok(Line::Arith {
        operation,
        register,
        left,
        right,
    })
}

fn less(
    alloc: Global,
    fields: &mut Fields<'_>,
    atoms: &mut Atoms,
    scope: &Scope<'_>,
) -> Result<Line, LineFault> {
    fields.space()?;
    let comparison = words::comparison_of(fields.word()).ok_or(LineFault::Form)?;
    let left = source(alloc, fields, atoms, scope)?;
    let right = source(alloc, fields, atoms, scope)?;
    Ok(Line::Less {
        comparison,
        left,
        right,
    })
}

fn eval(
    alloc: Global,
    fields: &mut Fields<'_>,
    atoms: &mut Atoms,
    scope: &Scope<'_>,
) -> Result<Line, LineFault> {
    let register = register(fields)?;
    let expression = source(alloc, fields, atoms, scope)?;
    Ok(Line::Eval {
        register,
        expression,
    })
}

fn same(
    alloc: Global,
    fields: &mut Fields<'_>,
    atoms: &mut Atoms,
    scope: &Scope<'_>,
) -> Result<Line, LineFault> {
    fields.space()?;
    let sameness = words::sameness_of(fields.word()).ok_or(LineFault::Form)?;
    let left = source(alloc, fields, atoms, scope)?;
    let right = source(alloc, fields, atoms, scope)?;
    Ok(Line::Same {
        sameness,
        left,
        right,
    })
}

fn builtin(alloc: Global, fields: &mut Fields<'_>, atoms: &mut Atoms) -> Result<Line, LineFault> {
    fields.space()?;
    Ok(Line::Builtin(operands::builtin(alloc, fields, atoms)?))
}

fn raise(
    alloc: Global,
    fields: &mut Fields<'_>,
    atoms: &mut Atoms,
    scope: &Scope<'_>,
) -> Result<Line, LineFault> {
    Ok(Line::Raise(source(alloc, fields, atoms, scope)?))
}

fn hole(fields: &mut Fields<'_>) -> Result<Line, LineFault> {
    let register = register(fields)?;
    fields.space()?;
    let holds = words::hole_type_of(fields.word()).ok_or(LineFault::Form)?;
    Ok(Line::Hole { register, holds })
}

fn fill(
    alloc: Global,
    fields: &mut Fields<'_>,
    atoms: &mut Atoms,
    scope: &Scope<'_>,
) -> Result<Line, LineFault> {
    let register = register(fields)?;
    let with = source(alloc, fields, atoms, scope)?;
    Ok(Line::Fill { register, with })
}
