ghost use Rattle.std.specs.Prelude.{◌≡◌, length};
ghost use Rattle.unify_special.specs.Steps.{moves_of, moves_of_line, step_of, steps_of};

use crate::base::Base;
use crate::draft::Draft;
use crate::open_label::open_label;
use crate::operand::constant_source;
use crate::picture::Picture;
use aq_term::memory::Memory;
use bam_code::constant::Constant;
use bam_code::line::Line;
use bam_code::signature::Signature;
use bam_code::switch_target::SwitchTarget;
use bam_code::target::Target;
use bam_code::word_type::WordType;
use flow_equations::env::learn;
use type_lattice::fact::Fact;

/// Goes on where a register, which holds no reference, holds the constant.
pub fn match_constant(register: u16, constant: Constant, draft: &mut Draft) -> Result<(), Memory>
    ensures steps { steps_of draft.new.lines ≡ steps_of draft.old.lines }
    ensures moves { moves_of draft.new.lines ≡ moves_of draft.old.lines }
{
    draft.line(Line::Match {
        register,
        constant,
        other: Target::Fails,
    })
}

/// Makes a register, which holds a reference to an unbound cell or none, equal to a constant, or fails.
pub fn equal_constant(
    base: Base,
    constant: Constant,
    signature: &Signature,
    picture: &mut Picture,
    draft: &mut Draft,
) -> Result<(), Memory>
    ensures facts { length picture.new.facts ≡ length picture.old.facts }
    ensures places { length picture.new.places ≡ length picture.old.places }
    ensures steps { steps_of draft.new.lines ≡ steps_of draft.old.lines }
    ensures moves { moves_of draft.new.lines ≡ moves_of draft.old.lines }
{
    let write = draft.take_label();
    let read = draft.take_label();
    let join = draft.take_label();
    draft.line(constant_switch(base.register, constant, write, read))?;
    open_label(write, base, WordType::Var, signature, picture, draft)?;
    draft.close();
    draft.line(Line::Bind {
        register: base.register,
        with: constant_source(constant),
    })?;
    draft.line(Line::Jump(Target::Label(join)))?;
    open_label(
        read,
        base,
        constant_type(constant),
        signature,
        picture,
        draft,
    )?;
    draft.close();
    match_constant(base.register, constant, draft)?;
    if let Some(variable) = base.learns {
        learn(&mut picture.facts, variable, Fact::Ground);
    }
    draft.label(join, signature, picture)
}

/// Goes on by whether a word is unbound or of the constant's type, and fails else.
fn constant_switch(register: u16, constant: Constant, write: u32, read: u32) -> Line
    ensures steps { step_of result ≡ None }
    ensures moves { moves_of_line result ≡ 0 }
{
    let (atom, integer) = match constant {
        Constant::Atom(_) => (Target::Label(read), Target::Fails),
        Constant::Int(_) => (Target::Fails, Target::Label(read)),
    };
    Line::Switch {
        register,
        reference: SwitchTarget::Label(write),
        atom,
        integer,
        list: Target::Fails,
        structure: Target::Fails,
    }
}

fn constant_type(constant: Constant) -> WordType {
    match constant {
        Constant::Atom(_) => WordType::Atom,
        Constant::Int(_) => WordType::Int,
    }
}
