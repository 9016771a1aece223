use crate::builtins::WHOLE;
use crate::choice::Choice;
use crate::control::Here;
use crate::ending::{End, Ending};
use crate::goals::{Goals, Link};
use crate::halt::Halt;
use crate::output::Output;
use crate::pending::{Body, Pending};
use crate::spelling::spell;
use crate::step::Step;
use crate::terms::Terms;
use crate::transcript::Transcript;
use crate::value::{Compound, Value};
use aq_term::args0::Args0;
use aq_term::atom::Atom;
use aq_term::atoms::Atoms;
use aq_term::memory::Memory;
use aq_term::names::Names;
use aq_term::read_term::ReadTerm;
use aq_term::term::Term;
use prolog_writer::{answer_text, write_term};
use source_program::program::Program;
use std::alloc::Global;

/// The state of a run, its goals aside.
#[derive(Drop)]
pub struct Interpreter<'p> {
    pub(crate) program: &'p Program,
    pub(crate) atoms: &'p Atoms,
    /// The names of the query's variables, which are the first of the run.
    pub(crate) names: &'p Names,
    pub(crate) terms: Terms,
    pub(crate) goals: Goals<'p>,
    pub(crate) choices: Vec<Choice<'p>>,
    pub(crate) output: Output,
}

/// How far a run may go.
#[derive(Clone, Copy, Debug)]
pub struct Bounds {
    pub steps: u64,
    /// The most visits of one walk over terms.
    pub visits: u64,
}

/// Runs a query of a program to its end, or until the steps are used up.
pub fn interpret(
    alloc: Global,
    program: &Program,
    atoms: &Atoms,
    query: &ReadTerm,
    bounds: Bounds,
) -> Result<Transcript, Memory> {
    let mut interpreter = Interpreter {
        program,
        atoms,
        names: &query.names,
        terms: Terms::new(alloc, bounds.visits),
        goals: Goals::new(alloc),
        choices: Vec::new(alloc),
        output: Output::new(alloc),
    };
    let ended = interpreter.run(&query.term, bounds.steps);
    interpreter.close(ended)
}

impl<'p> Interpreter<'p> {
    /// The end of the run, or none where the steps are used up.
    fn run(&mut self, query: &'p Term, steps: u64) -> Result<End, Halt> {
        let mut went = self.begin(query)?;
        for _ in 0..steps {
            match went {
                Step::Went(list) => went = self.step(list)?,
                Step::Ended(end) => return Ok(end),
            }
        }
        Err(Halt::Stopped)
    }

    /// Begins with the call of the query.
    fn begin(&mut self, query: &'p Term) -> Result<Step, Halt> {
        let base = self.terms.variables(self.names.len())?;
        let here = Here {
            base,
            depth: 0,
            next: None,
        };
        match query {
            Term::Atom(name) => self.call(*name, &[], here),
            Term::Compound(name, args) => self.call(*name, args.as_slice(), here),
            Term::Var(_) | Term::Int(_) => Err(Halt::Lost),
        }
    }

    /// One step of the run with these goals.
    fn step(&mut self, list: Option<usize>) -> Result<Step, Halt> {
        let Some(place) = list else {
            return self.solution();
        };
        let Link {
            pending,
            depth,
            next,
        } = self.goals.get(place).ok_or(Halt::Lost)?;
        match pending {
            Pending::Goal(Body { goal, base }) => self.goal(goal, Here { base, depth, next }),
            Pending::Cut => Ok(self.cut(Here {
                base: 0,
                depth,
                next,
            })),
            Pending::Fail => Ok(self.back()),
            Pending::Try(attempt) => self.try_clause(attempt, depth, next),
            Pending::Leave(_) => Ok(Step::Went(next)),
            Pending::Ball(ball) => self.ball(ball, next),
        }
    }

    /// Writes the answer and goes back.
    fn solution(&mut self) -> Result<Step, Halt> {
        let mut values = Args0::new(self.terms.alloc());
        for number in 0..self.names.len() {
            values.push(spell(&self.terms, Value::Variable(number))?)?;
        }
        let text = answer_text(self.terms.alloc(), self.names, &values, self.atoms)?;
        self.output.begin_line()?;
        self.output.put(text.as_slice())?;
        Ok(self.back())
    }

    /// The bytes and the ending of the run.
    fn close(mut self, ended: Result<End, Halt>) -> Result<Transcript, Memory> {
        let closed = match ended {
            Ok(end) => self.put_ending(end),
            Err(halt) => Err(halt),
        };
        let ending = match closed {
            Ok(ending) => ending,
            Err(Halt::Stopped) => Ending::Stopped,
            Err(Halt::Lost) => Ending::Lost,
            Err(Halt::Memory) => return Err(Memory),
        };
        Ok(Transcript {
            bytes: self.output.into_bytes(),
            ending,
        })
    }

    /// Writes the line of an ending, where there is one.
    fn put_ending(&mut self, end: End) -> Result<Ending, Halt> {
        match end {
            End::Occurs => Ok(Ending::Occurs),
            End::Exhausted => {
                self.output.begin_line()?;
                self.output.put(b"no\n")?;
                Ok(Ending::Exhausted)
            }
            End::Raised(ball) => {
                let term = spell(&self.terms, self.error_in(ball))?;
                let text = write_term(self.terms.alloc(), &term, self.atoms, true, WHOLE)?;
                self.output.begin_line()?;
                self.output.put(b"error: ")?;
                self.output.put(text.as_slice())?;
                self.output.put(b"\n")?;
                Ok(Ending::Raised)
            }
        }
    }

    /// The error of a ball `error(E,U)`, and any other ball itself.
    fn error_in(&self, ball: Value) -> Value {
        match self.terms.value_of(ball) {
            Value::Compound(compound) if is_error(compound) => match self
                .terms
                .argument(compound, 0)
            {
                Some(error) => error,
                None => ball,
            },
            _ => ball,
        }
    }
}

fn is_error(compound: Compound) -> bool {
    compound.name == Atom::ERROR && compound.arity == 2
}
