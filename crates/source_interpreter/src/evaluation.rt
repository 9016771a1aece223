use crate::arithmetic::value_of;
use crate::errors::{evaluation_error, instantiation, not_evaluable};
use crate::halt::Halt;
use crate::operation::Operation;
use crate::terms::Terms;
use crate::value::{Compound, Value};

/// What an expression comes to.
#[derive(Clone, Copy, Debug)]
pub enum Evaluated {
    Number(i64),
    /// The error that is raised.
    Raises(Value),
}

/// What is still to be done of an evaluation.
#[derive(Clone, Copy, Debug)]
enum Task {
    Evaluate(Value),
    /// The operation on the newest values.
    Apply(Operation),
}

/// The value of an expression: its operands from left to right, then its operation.
pub fn evaluate(terms: &mut Terms, expression: Value) -> Result<Evaluated, Halt> {
    let mut tasks = Vec::new(terms.alloc());
    let mut numbers = Vec::new(terms.alloc());
    tasks.push(Task::Evaluate(expression))?;
    for _ in 0..terms.most_visits() {
        let Some(task) = tasks.pop() else {
            return Ok(Evaluated::Number(numbers.pop().ok_or(Halt::Lost)?));
        };
        if let Some(error) = perform(terms, task, &mut tasks, &mut numbers)? {
            return Ok(Evaluated::Raises(error));
        }
    }
    Err(Halt::Stopped)
}

/// Does one task, and gives the error where it raises one.
fn perform(
    terms: &mut Terms,
    task: Task,
    tasks: &mut Vec<Task>,
    numbers: &mut Vec<i64>,
) -> Result<Option<Value>, Halt> {
    match task {
        Task::Apply(operation) => apply(terms, operation, numbers),
        Task::Evaluate(value) => match terms.value_of(value) {
            Value::Variable(_) => Ok(Some(instantiation())),
            Value::Integer(number) => {
                numbers.push(number)?;
                Ok(None)
            }
            Value::Atom(name) => Ok(Some(not_evaluable(terms, name, 0)?)),
            Value::Compound(compound) => open(terms, compound, tasks),
        },
    }
}

/// Puts what a compound asks for on the stack.
fn open(
    terms: &mut Terms,
    compound: Compound,
    tasks: &mut Vec<Task>,
) -> Result<Option<Value>, Halt> {
    let Some(operation) = Operation::of(compound.name, compound.arity) else {
        return Ok(Some(not_evaluable(terms, compound.name, compound.arity)?));
    };
    tasks.push(Task::Apply(operation))?;
    for place in (0..compound.arity).rev() {
        let operand = terms.argument(compound, place).ok_or(Halt::Lost)?;
        tasks.push(Task::Evaluate(operand))?;
    }
    Ok(None)
}

/// Does an operation on the newest values.
fn apply(
    terms: &mut Terms,
    operation: Operation,
    numbers: &mut Vec<i64>,
) -> Result<Option<Value>, Halt> {
    let y = numbers.pop().ok_or(Halt::Lost)?;
    let x = match operation {
        Operation::Negate | Operation::Complement => 0,
        _ => numbers.pop().ok_or(Halt::Lost)?,
    };
    match value_of(operation, x, y) {
        Ok(number) => {
            numbers.push(number)?;
            Ok(None)
        }
        Err(fault) => Ok(Some(evaluation_error(terms, fault)?)),
    }
}
