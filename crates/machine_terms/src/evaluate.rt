ghost use Rattle.std.specs.Prelude.{◌≤◌};

use crate::arithmetic::operate;
use crate::compound::Compound;
use crate::form::{Form, operation_named};
use crate::halt::Halt;
use crate::outcome::{Outcome, outcome_of};
use crate::reads::{cell_at, work_at};
use crate::shape::{Shape, atom_of, atom_word, shape_of};
use crate::visit::visit;
use aq_term::atoms::Atoms;
use bam_code::arith_op::ArithOp;
use machine_store::store::Store;
use tag_word::tag::Tag;
use tag_word::word::Word;

/// The value of an expression, the first of `args` (ISO/IEC 13211-1, 9.1): `Made` gives an integer. Each node that is evaluated is visited: a compound, then
/// its arguments from left to right, then its operation is done. Errors, as they are met:
///
/// - a variable: `instantiation_error`
/// - an atom, or a compound that is no form of arithmetic, before its arguments: `type_error(evaluable,Name/Arity)`
/// - an operation without a value: `evaluation_error(int_overflow)`, `evaluation_error(zero_divisor)` or
///   `evaluation_error(undefined)`
pub fn evaluate(store: &mut Store, _atoms: &Atoms, args: &[Word], left: &mut u64) -> Outcome
    ensures { left.new ≤ left.old }
{
    let [expression, ..] = args else {
        return Outcome::Stray;
    };
    let base = store.work_len();
    let value = value_of(store, *expression, left);
    store.cut_work(base);
    let answer = match value {
        Ok(value) => Ok(Outcome::Made(Word::of_int(value))),
        Err(halt) => Err(halt),
    };
    outcome_of(store, answer)
}

/// What comes after a node or a value.
#[derive(Clone, Copy)]
enum Next {
    /// This node is to be evaluated.
    Node(Word),
    /// A value is known, of which it is not known yet who wants it.
    Value(i64),
}

fn value_of(store: &mut Store, expression: Word, left: &mut u64) -> Result<i64, Halt>
    ensures { left.new ≤ left.old }
{
    let base = store.work_len();
    let mut node = expression;
    'nodes: loop {
        visit(left)?;
        let next = match enter(store, node)? {
            Next::Node(operand) => Next::Node(operand),
            Next::Value(value) => resume(store, base, value)?,
        };
        match next {
            Next::Node(operand) => node = operand,
            Next::Value(value) => return Ok(value),
        }
    }
}

/// A node's value where it is an integer, or its first argument where it is a form, whose operation then waits in the work area.
fn enter(store: &mut Store, node: Word) -> Result<Next, Halt> {
    match shape_of(store, node)? {
        Shape::Variable(_) => Err(Halt::Instantiation),
        Shape::Integer(value) => Ok(Next::Value(value)),
        Shape::Atom(name) => Err(Halt::NotEvaluable { name, arity: 0 }),
        Shape::Compound(compound) => enter_form(store, compound),
    }
}

/// The words of an operation that waits: its left operand's value, or a reference to the right operand where the left one is being
/// evaluated; and its name.
const WAITING_WORDS: u64 = 2;

fn enter_form(store: &mut Store, compound: Compound) -> Result<Next, Halt> {
    let (operand, operation) = match Form::of(compound.name, compound.arity) {
        Some(Form::OneArgument { left, operation }) => (Word::of_int(left), operation),
        Some(Form::TwoArguments { operation }) => {
            (Word::of(Tag::Ref, compound.argument_index(1)), operation)
        }
        None => {
            return Err(Halt::NotEvaluable {
                name: compound.name,
                arity: compound.arity,
            });
        }
    };
    store.push_work(operand)?;
    store.push_work(atom_word(operation))?;
    Ok(Next::Node(compound.argument(store, 0)?))
}

/// Hands a value to the operations that wait for it, until one wants its right operand evaluated or none above the base is left.
fn resume(store: &mut Store, base: u64, value: i64) -> Result<Next, Halt> {
    let mut value = value;
    let mut at = store.work_len();
    'waiting: while at >= base.saturating_add(WAITING_WORDS) {
        at -= WAITING_WORDS;
        let operand = work_at(store, at)?;
        if operand.tag() != Tag::Int {
            store.cut_work(at + WAITING_WORDS);
            store.set_work(at, Word::of_int(value))?;
            return Ok(Next::Node(cell_at(store, operand.value())?));
        }
        let operation = waiting_operation(work_at(store, at + 1)?)?;
        value = operated(operation, operand.int(), value)?;
    }
    store.cut_work(base);
    Ok(Next::Value(value))
}

fn waiting_operation(word: Word) -> Result<ArithOp, Halt> {
    let named = match atom_of(word) {
        Some(name) => operation_named(name),
        None => None,
    };
    match named {
        Some(operation) => Ok(operation),
        None => Err(Halt::Stray),
    }
}

fn operated(operation: ArithOp, left: i64, right: i64) -> Result<i64, Halt> {
    match operate(operation, left, right) {
        Ok(value) => Ok(value),
        Err(fault) => Err(Halt::Evaluation {
            fault: fault.name(),
        }),
    }
}
