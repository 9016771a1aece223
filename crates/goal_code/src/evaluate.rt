ghost use Rattle.std.specs.Prelude.{◌≡◌, ◌≤◌, ◌+◌};
ghost use Rattle.unify_special.specs.Steps.{moves_of, moves_of_line, step_of, steps_of};

use crate::writer::Writer;
use aq_term::args::Args;
use aq_term::atom::Atom;
use aq_term::functor::Functor;
use aq_term::memory::Memory;
use aq_term::term::Term;
use bam_code::arith_op::ArithOp;
use bam_code::comparison::Comparison;
use bam_code::line::Line;
use bam_code::source::Source;
use flow_equations::occurrences::variables_of_all;
use unify_special::operand::{move_to, operand};
use unify_special::place::Place;

/// How a compound is evaluated that is an expression.
#[derive(Clone, Copy, Debug, PartialEq, Eq)]
enum Form {
    /// The operation is done on both arguments.
    Both(ArithOp),
    /// The operation is done on this integer and the argument.
    With(i64, ArithOp),
}

impl Writer<'_> {
    /// Writes `X is E`, where `made` is X if it is out before the goal. Then the value's register is its place.
    pub fn is(&mut self, made: Option<u32>, arguments: &[Term]) -> Result<(), Memory>
        ensures steps { steps_of self.new.draft.lines ≡ steps_of self.old.draft.lines }
        ensures moves { moves_of self.new.draft.lines ≤ moves_of self.old.draft.lines + 1 }
    {
        let [result, expression] = arguments else {
            return Ok(());
        };
        let register = self.draft.take_register();
        let value = self.evaluate(expression, register)?;
        self.settle(register, value)?;
        match made {
            Some(variable) => {
                self.picture.places.set(variable, Place::Register(register));
                Ok(())
            }
            None => {
                self.draft.register = register;
                match self.argument_source(result) {
                    Some(with) => self.line(Line::Unify { register, with }),
                    None => Ok(()),
                }
            }
        }
    }

    /// Puts a value into the register where it does not stand there.
    fn settle(&mut self, register: u16, value: Source) -> Result<(), Memory>
        ensures steps { steps_of self.new.draft.lines ≡ steps_of self.old.draft.lines }
        ensures moves { moves_of self.new.draft.lines ≤ moves_of self.old.draft.lines + 1 }
    {
        if value == Source::Register(register) {
            return Ok(());
        }
        self.line(move_to(register, value))
    }

    /// Writes a comparison of the values of two expressions, the left one of which is evaluated first.
    pub fn compare_numbers(
        &mut self,
        comparison: Comparison,
        arguments: &[Term],
    ) -> Result<(), Memory>
        ensures steps { steps_of self.new.draft.lines ≡ steps_of self.old.draft.lines }
        ensures moves { moves_of self.new.draft.lines ≡ moves_of self.old.draft.lines }
    {
        let [left, right] = arguments else {
            return Ok(());
        };
        let first = self.draft.take_register();
        let left = self.evaluate(left, first)?;
        let second = self.draft.take_register();
        let right = self.evaluate(right, second)?;
        self.draft.register = first;
        self.line(Line::Less {
            comparison,
            left,
            right,
        })
    }

    /// Writes the evaluation of an expression. The answer is its value: an integer as it stands, and else this register. Temporary
    /// registers are given back.
    #[cycle(evaluate)]
    fn evaluate(&mut self, expression: &Term, register: u16) -> Result<Source, Memory>
        ensures steps { steps_of self.new.draft.lines ≡ steps_of self.old.draft.lines }
        ensures moves { moves_of self.new.draft.lines ≡ moves_of self.old.draft.lines }
    {
        match expression {
            Term::Int(value) => Ok(Source::Int(*value)),
            Term::Atom(name) => self.eval(register, Source::Atom(*name)),
            Term::Var(variable) => {
                let from = operand(&self.picture, *variable);
                self.eval(register, from)
            }
            Term::Compound(name, arguments) => match form_of(*name, arguments.len()) {
                Some(form) => {
                    let operands = self.evaluate_all(arguments, register)?;
                    self.arith(form, register, operands.as_slice())
                }
                None => self.refuse(*name, arguments, register),
            },
        }
    }

    /// Evaluates arguments from left to right, the first one in this register.
    #[cycle(evaluate)]
    fn evaluate_all(&mut self, arguments: &Args, register: u16) -> Result<Vec<Source>, Memory>
        ensures steps { steps_of self.new.draft.lines ≡ steps_of self.old.draft.lines }
        ensures moves { moves_of self.new.draft.lines ≡ moves_of self.old.draft.lines }
    {
        let mut operands = Vec::with_capacity(self.alloc, arguments.len())?;
        let free = self.draft.register;
        let mut next = register;
        for argument in arguments.as_slice() {
            operands.push(self.evaluate(argument, next)?)?;
            next = self.draft.take_register();
        }
        self.draft.register = free;
        Ok(operands)
    }

    fn eval(&mut self, register: u16, expression: Source) -> Result<Source, Memory>
        ensures steps { steps_of self.new.draft.lines ≡ steps_of self.old.draft.lines }
        ensures moves { moves_of self.new.draft.lines ≡ moves_of self.old.draft.lines }
    {
        self.line(Line::Eval {
            register,
            expression,
        })?;
        Ok(Source::Register(register))
    }

    /// Writes an operation on evaluated operands.
    fn arith(&mut self, form: Form, register: u16, operands: &[Source]) -> Result<Source, Memory>
        ensures steps { steps_of self.new.draft.lines ≡ steps_of self.old.draft.lines }
        ensures moves { moves_of self.new.draft.lines ≡ moves_of self.old.draft.lines }
    {
        let (operation, left, right) = match (form, operands) {
            (Form::Both(operation), [left, right, ..]) => (operation, *left, *right),
            (Form::With(left, operation), [right, ..]) => (operation, Source::Int(left), *right),
            _ => return Ok(Source::Register(register)),
        };
        self.line(Line::Arith {
            operation,
            register,
            left,
            right,
        })?;
        Ok(Source::Register(register))
    }

    /// Writes the evaluation of a compound that is no expression, which raises its error before any argument is looked at. The lines
    /// behind that are for the verifier alone, to which they tell that the variables are ground, as the facts have it.
    fn refuse(&mut self, name: Atom, arguments: &Args, register: u16) -> Result<Source, Memory>
        ensures steps { steps_of self.new.draft.lines ≡ steps_of self.old.draft.lines }
        ensures moves { moves_of self.new.draft.lines ≡ moves_of self.old.draft.lines }
    {
        self.line(compound_line(name, arguments.len(), register))?;
        for _argument in arguments.as_slice() {
            self.line(Line::Push(Source::Int(0)))?;
        }
        let value = self.eval(register, Source::Register(register))?;
        let teaching = self.draft.register;
        for variable in variables_of_all(self.alloc, arguments.as_slice())?.as_slice() {
            let from = operand(&self.picture, *variable);
            let _value = self.eval(teaching, from)?;
        }
        Ok(value)
    }
}

/// The line that begins a compound.
fn compound_line(name: Atom, arity: usize, register: u16) -> Line
    ensures steps { step_of result ≡ None }
    ensures moves { moves_of_line result ≡ 0 }
{
    match (name, arity) {
        (Atom::LIST, 2) => Line::ListCell { register },
        _ => Line::Structure {
            register,
            functor: Functor {
                name,
                arity: u8::try_from(arity).unwrap_or(u8::MAX),
            },
        },
    }
}

/// The form of a compound that is an expression.
fn form_of(name: Atom, arity: usize) -> Option<Form> {
    match arity {
        1 => form_of_one(name),
        2 => form_of_two(name),
        _ => None,
    }
}

fn form_of_one(name: Atom) -> Option<Form> {
    match name {
        Atom::MINUS => Some(Form::With(0, ArithOp::Subtract)),
        Atom::COMPLEMENT => Some(Form::With(-1, ArithOp::Subtract)),
        _ => None,
    }
}

fn form_of_two(name: Atom) -> Option<Form> {
    match name {
        Atom::PLUS => Some(Form::Both(ArithOp::Add)),
        Atom::MINUS => Some(Form::Both(ArithOp::Subtract)),
        Atom::TIMES => Some(Form::Both(ArithOp::Multiply)),
        Atom::QUOTIENT => Some(Form::Both(ArithOp::Quotient)),
        Atom::REM => Some(Form::Both(ArithOp::Remainder)),
        Atom::MOD => Some(Form::Both(ArithOp::Modulo)),
        Atom::SHIFT_LEFT => Some(Form::Both(ArithOp::ShiftLeft)),
        Atom::SHIFT_RIGHT => Some(Form::Both(ArithOp::ShiftRight)),
        Atom::BIT_AND => Some(Form::Both(ArithOp::And)),
        Atom::BIT_OR => Some(Form::Both(ArithOp::Or)),
        _ => None,
    }
}
