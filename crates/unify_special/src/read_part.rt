ghost use Rattle.std.specs.Prelude.{◌≡◌, length};
ghost use Rattle.unify_special.specs.Steps.{moves_of, moves_of_line, step_of, steps_of};

use crate::base::{Base, Parts};
use crate::draft::Draft;
use crate::equal_constant::{equal_constant, match_constant};
use crate::operand::{operand, register_of};
use crate::picture::Picture;
use aq_term::memory::Memory;
use bam_code::constant::Constant;
use bam_code::line::Line;
use bam_code::signature::Signature;
use bam_code::source::Source;
use flow_equations::env::learn;
use type_lattice::fact::Fact;

/// Loads a cell of a word into a temporary register.
pub fn load(cell: u8, base: Base, draft: &mut Draft) -> Result<u16, Memory>
    ensures steps { steps_of draft.new.lines ≡ steps_of draft.old.lines }
    ensures moves { moves_of draft.new.lines ≡ moves_of draft.old.lines }
{
    let register = draft.take_register();
    draft.line(load_to(register, cell, base))?;
    Ok(register)
}

fn load_to(register: u16, cell: u8, base: Base) -> Line
    ensures steps { step_of result ≡ None }
    ensures moves { moves_of_line result ≡ 0 }
{
    Line::Load {
        register,
        from: Source::Register(base.register),
        cell,
    }
}

/// An argument that is a variable which is out: it is what stands there.
pub fn read_new(
    variable: u32,
    cell: u8,
    base: Base,
    picture: &mut Picture,
    draft: &mut Draft,
) -> Result<(), Memory>
    ensures facts { length picture.new.facts ≡ length picture.old.facts }
    ensures places { length picture.new.places ≡ length picture.old.places }
    ensures steps { steps_of draft.new.lines ≡ steps_of draft.old.lines }
    ensures moves { moves_of draft.new.lines ≡ moves_of draft.old.lines }
{
    draft.line(load_to(register_of(picture, variable), cell, base))?;
    picture.facts.set(variable, base.parts.fact());
    Ok(())
}

/// An argument that is a variable with a value. It is ground where all that is read is.
pub fn read_known(
    variable: u32,
    cell: u8,
    base: Base,
    picture: &mut Picture,
    draft: &mut Draft,
) -> Result<(), Memory>
    ensures facts { length picture.new.facts ≡ length picture.old.facts }
    ensures places { length picture.new.places ≡ length picture.old.places }
    ensures steps { steps_of draft.new.lines ≡ steps_of draft.old.lines }
    ensures moves { moves_of draft.new.lines ≡ moves_of draft.old.lines }
{
    let register = load(cell, base, draft)?;
    draft.line(Line::Unify {
        register,
        with: operand(picture, variable),
    })?;
    if base.parts != Parts::Any {
        learn(&mut picture.facts, variable, Fact::Ground);
    }
    Ok(())
}

/// An argument that is a compound without variables, the pool's entry of this number.
pub fn read_ground(number: u32, cell: u8, base: Base, draft: &mut Draft) -> Result<(), Memory>
    ensures steps { steps_of draft.new.lines ≡ steps_of draft.old.lines }
    ensures moves { moves_of draft.new.lines ≡ moves_of draft.old.lines }
{
    let register = load(cell, base, draft)?;
    draft.line(Line::Unify {
        register,
        with: Source::Pool(number),
    })
}

/// An argument that is a constant.
pub fn read_constant(
    constant: Constant,
    cell: u8,
    base: Base,
    signature: &Signature,
    picture: &mut Picture,
    draft: &mut Draft,
) -> Result<(), Memory>
    ensures facts { length picture.new.facts ≡ length picture.old.facts }
    ensures places { length picture.new.places ≡ length picture.old.places }
    ensures steps { steps_of draft.new.lines ≡ steps_of draft.old.lines }
    ensures moves { moves_of draft.new.lines ≡ moves_of draft.old.lines }
{
    let register = load(cell, base, draft)?;
    if base.parts != Parts::Full {
        draft.line(Line::Deref {
            register,
            from: Source::Register(register),
        })?;
    }
    match base.parts {
        Parts::Any => equal_constant(base.part(register), constant, signature, picture, draft),
        Parts::Full | Parts::Ground => match_constant(register, constant, draft),
    }
}
