ghost use Rattle.std.specs.Prelude.{◌≡◌, ◌++◌, OnOk};
ghost use Rattle.bam_text.specs.LineText.{builtin_line_text, field, label_text, line_text, switch_targets_text};
ghost use Rattle.std.specs.Fmt.{decimal};
ghost use Rattle.bam_text.specs.Operands as operands;

use crate::output::Output;
use crate::print_operands as operand;
use crate::words::{arith_op_word, comparison_word, hole_type_word, sameness_word};
use aq_term::atoms::Atoms;
use aq_term::builtin::Builtin;
use aq_term::functor::Functor;
use aq_term::memory::Memory;
use aq_term::proc_name::ProcName;
use bam_code::constant::Constant;
use bam_code::item::Item;
use bam_code::line::Line;
use bam_code::place::Place;
use bam_code::source::Source;
use bam_code::switch_target::SwitchTarget;
use bam_code::target::Target;

/// Prints a line of a procedure, without its new line.
pub fn line(output: &mut Output, atoms: &Atoms, line: &Line) -> Result<(), Memory>
    ensures { OnOk result (output.new ≡ output.old ++ line_text atoms.now line.now) }
{
    match line {
        Line::Label {
            number,
            frame,
            items,
        } => label(output, atoms, "label", *number, *frame, items.as_slice()),
        Line::Alt {
            number,
            frame,
            items,
        } => label(output, atoms, "alt", *number, *frame, items.as_slice()),
        Line::Ball {
            number,
            frame,
            items,
        } => label(output, atoms, "ball", *number, *frame, items.as_slice()),
        Line::Move { into, from } => {
            output.text("move")?;
            place(output, *into)?;
            source(output, atoms, *from)
        }
        Line::Deref { register, from } => {
            register_and_source(output, atoms, "deref", *register, *from)
        }
        Line::Load {
            register,
            from,
            cell,
        } => {
            register_and_source(output, atoms, "load", *register, *from)?;
            number(output, u64::from(*cell))
        }
        Line::Structure { register, functor } => {
            register_alone(output, "str", *register)?;
            functor_field(output, atoms, *functor)
        }
        Line::ListCell { register } => register_alone(output, "lst", *register),
        Line::Push(from) => source_alone(output, atoms, "push", *from),
        Line::PushNew { register } => register_alone(output, "push_new", *register),
        Line::Fresh { register } => register_alone(output, "fresh", *register),
        Line::Bind { register, with } => {
            register_and_source(output, atoms, "bind", *register, *with)
        }
        Line::Unify { register, with } => {
            register_and_source(output, atoms, "unify", *register, *with)
        }
        Line::Jump(to) => target_alone(output, "jump", *to),
        Line::Switch {
            register,
            reference,
            atom,
            integer,
            list,
            structure,
        } => {
            register_alone(output, "switch", *register)?;
            switch_targets(output, *reference, *atom, *integer, *list, *structure)
        }
        Line::Match {
            register,
            constant,
            other,
        } => {
            register_alone(output, "match", *register)?;
            constant_field(output, atoms, *constant)?;
            target(output, *other)
        }
        Line::Functor {
            register,
            functor,
            other,
        } => {
            register_alone(output, "functor", *register)?;
            functor_field(output, atoms, *functor)?;
            target(output, *other)
        }
        Line::Fail => output.text("fail"),
        Line::Call(name) => name_alone(output, atoms, "call", *name),
        Line::Exec(name) => name_alone(output, atoms, "exec", *name),
        Line::Return => output.text("return"),
        Line::Allocate(slots) => number_alone(output, "allocate", u64::from(*slots)),
        Line::Deallocate => output.text("deallocate"),
        Line::Try {
            registers,
            alternative,
        } => {
            number_alone(output, "try", u64::from(*registers))?;
            target(output, *alternative)
        }
        Line::Retry(alternative) => target_alone(output, "retry", *alternative),
        Line::Trust => output.text("trust"),
        Line::Mark { register } => register_alone(output, "mark", *register),
        Line::Cut(from) => source_alone(output, atoms, "cut", *from),
        Line::Arith {
            operation,
            register,
            left,
            right,
        } => {
            output.text("arith")?;
            output.field(arith_op_word(*operation))?;
            register_field(output, *register)?;
            two_sources(output, atoms, *left, *right)
        }
        Line::Less {
            comparison,
            left,
            right,
        } => {
            output.text("less")?;
            output.field(comparison_word(*comparison))?;
            two_sources(output, atoms, *left, *right)
        }
        Line::Eval {
            register,
            expression,
        } => register_and_source(output, atoms, "eval", *register, *expression),
        Line::Same {
            sameness,
            left,
            right,
        } => {
            output.text("same")?;
            output.field(sameness_word(*sameness))?;
            two_sources(output, atoms, *left, *right)
        }
        Line::Builtin(builtin) => builtin_line(output, atoms, *builtin),
        Line::Raise(from) => source_alone(output, atoms, "raise", *from),
        Line::Hole { register, holds } => {
            register_alone(output, "hole", *register)?;
            output.field(hole_type_word(*holds))
        }
        Line::Fill { register, with } => {
            register_and_source(output, atoms, "fill", *register, *with)
        }
        Line::Catch { registers, ball } => {
            number_alone(output, "catch", u64::from(*registers))?;
            target(output, *ball)
        }
        Line::Uncatch => output.text("uncatch"),
    }
}

/// Prints a label, an alternative or the label of a ball.
fn label(
    output: &mut Output,
    atoms: &Atoms,
    word: &str,
    numbered: u32,
    frame: Option<u16>,
    items: &[Item],
) -> Result<(), Memory>
    ensures { OnOk result (output.new ≡ output.old ++ label_text atoms.now word.now numbered frame items.now) }
{
    number_alone(output, word, u64::from(numbered))?;
    output.byte(b' ')?;
    operand::frame(output, frame)?;
    operand::items(output, atoms, items)
}

// Each of these prints a space and then one operand.

fn register_field(output: &mut Output, register: u16) -> Result<(), Memory>
    ensures { OnOk result (output.new ≡ output.old ++ field (operands.register_text register)) }
{
    output.byte(b' ')?;
    operand::register(output, register)
}

fn place(output: &mut Output, place: Place) -> Result<(), Memory>
    ensures { OnOk result (output.new ≡ output.old ++ field (operands.place_text place)) }
{
    output.byte(b' ')?;
    operand::place(output, place)
}

fn source(output: &mut Output, atoms: &Atoms, source: Source) -> Result<(), Memory>
    ensures { OnOk result (output.new ≡ output.old ++ field (operands.source_text atoms.now source)) }
{
    output.byte(b' ')?;
    operand::source(output, atoms, source)
}

fn two_sources(
    output: &mut Output,
    atoms: &Atoms,
    left: Source,
    right: Source,
) -> Result<(), Memory>
    ensures { OnOk result (output.new ≡ output.old ++ field (operands.source_text atoms.now left) ++ field (operands.source_text atoms.now right)) }
{
    source(output, atoms, left)?;
    source(output, atoms, right)
}

fn target(output: &mut Output, target: Target) -> Result<(), Memory>
    ensures { OnOk result (output.new ≡ output.old ++ field (operands.target_text target)) }
{
    output.byte(b' ')?;
    operand::target(output, target)
}

fn number(output: &mut Output, number: u64) -> Result<(), Memory>
    ensures { OnOk result (output.new ≡ output.old ++ field (decimal number)) }
{
    output.byte(b' ')?;
    output.number(number)
}

fn functor_field(output: &mut Output, atoms: &Atoms, functor: Functor) -> Result<(), Memory>
    ensures { OnOk result (output.new ≡ output.old ++ field (operands.functor_text atoms.now functor)) }
{
    output.byte(b' ')?;
    operand::functor(output, atoms, functor)
}

fn constant_field(output: &mut Output, atoms: &Atoms, constant: Constant) -> Result<(), Memory>
    ensures { OnOk result (output.new ≡ output.old ++ field (operands.constant_text atoms.now constant)) }
{
    output.byte(b' ')?;
    operand::constant(output, atoms, constant)
}

// Each of these prints a word and then operands.

fn register_alone(output: &mut Output, word: &str, register: u16) -> Result<(), Memory>
    ensures { OnOk result (output.new ≡ output.old ++ word.now ++ field (operands.register_text register)) }
{
    output.text(word)?;
    register_field(output, register)
}

fn source_alone(output: &mut Output, atoms: &Atoms, word: &str, from: Source) -> Result<(), Memory>
    ensures { OnOk result (output.new ≡ output.old ++ word.now ++ field (operands.source_text atoms.now from)) }
{
    output.text(word)?;
    source(output, atoms, from)
}

fn register_and_source(
    output: &mut Output,
    atoms: &Atoms,
    word: &str,
    register: u16,
    from: Source,
) -> Result<(), Memory>
    ensures { OnOk result (output.new ≡ output.old ++ word.now ++ field (operands.register_text register) ++ field (operands.source_text atoms.now from)) }
{
    register_alone(output, word, register)?;
    source(output, atoms, from)
}

fn target_alone(output: &mut Output, word: &str, to: Target) -> Result<(), Memory>
    ensures { OnOk result (output.new ≡ output.old ++ word.now ++ field (operands.target_text to)) }
{
    output.text(word)?;
    target(output, to)
}

fn number_alone(output: &mut Output, word: &str, of: u64) -> Result<(), Memory>
    ensures { OnOk result (output.new ≡ output.old ++ word.now ++ field (decimal of)) }
{
    output.text(word)?;
    number(output, of)
}

fn name_alone(output: &mut Output, atoms: &Atoms, word: &str, name: ProcName) -> Result<(), Memory>
    ensures { OnOk result (output.new ≡ output.old ++ word.now ++ field (operands.name_text atoms.now name)) }
{
    output.text(word)?;
    output.byte(b' ')?;
    operand::name(output, atoms, name)
}

fn builtin_line(output: &mut Output, atoms: &Atoms, builtin: Builtin) -> Result<(), Memory>
    ensures { OnOk result (output.new ≡ output.old ++ builtin_line_text atoms.now builtin) }
{
    output.text("builtin")?;
    output.byte(b' ')?;
    operand::builtin(output, atoms, builtin)
}

/// Prints where a switch goes, from a reference on.
fn switch_targets(
    output: &mut Output,
    reference: SwitchTarget,
    atom: Target,
    integer: Target,
    list: Target,
    structure: Target,
) -> Result<(), Memory>
    ensures { OnOk result (output.new ≡ output.old ++ switch_targets_text reference atom integer list structure) }
{
    output.field("var=")?;
    operand::switch_target(output, reference)?;
    named_target(output, "atm=", atom)?;
    named_target(output, "int=", integer)?;
    named_target(output, "lst=", list)?;
    named_target(output, "str=", structure)
}

fn named_target(output: &mut Output, word: &str, target: Target) -> Result<(), Memory>
    ensures { OnOk result (output.new ≡ output.old ++ field word.now ++ operands.target_text target) }
{
    output.field(word)?;
    operand::target(output, target)
}
