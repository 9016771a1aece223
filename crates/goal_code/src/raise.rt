ghost use Rattle.std.specs.Prelude.{◌≡◌, ◌≤◌, ◌<◌, IfOk, OnOk};
ghost use Rattle.flow_equations.specs.declared.progress.Progress.TheVariants as progress;
ghost use Rattle.goal_code.specs.StepCounts.{choices_of, ends_of};
ghost use Rattle.unify_special.specs.Steps.{steps_of};

use crate::writer::Writer;
use aq_term::args::Args;
use aq_term::atom::Atom;
use aq_term::memory::Memory;
use aq_term::term::Term;
use bam_code::line::Line;
use bam_code::source::Source;
use flow_equations::env::see;
use flow_equations::progress::Progress;
use std::alloc::Global;
use unify_special::make::make_term;
use unify_special::operand::operand;

impl Writer<'_> {
    /// Writes the raising of the error of a predicate that has no clause.
    pub fn undefined(&mut self, name: Atom, arity: usize) -> Result<Progress, Memory>
        ensures choices { choices_of self.new.draft.lines ≡ choices_of self.old.draft.lines }
        ensures ends { ends_of self.old.draft.lines ≤ ends_of self.new.draft.lines }
        ensures ended { OnOk result (ends_of self.old.draft.lines < ends_of self.new.draft.lines) }
        ensures stops { IfOk result (λ next. next ≡ progress.Ends) }
    {
        let error = existence_error(self.alloc, name, arity)?;
        let number = self.pool.number(self.alloc, &error)?;
        self.line(Line::Raise(Source::Pool(number)))?;
        Ok(Progress::Ends)
    }

    /// Writes the raising of a term.
    pub fn throw(&mut self, ball: &Term) -> Result<Progress, Memory>
        ensures choices { choices_of self.new.draft.lines ≡ choices_of self.old.draft.lines }
        ensures ends { ends_of self.old.draft.lines ≤ ends_of self.new.draft.lines }
        ensures ended { OnOk result (ends_of self.old.draft.lines < ends_of self.new.draft.lines) }
        ensures stops { IfOk result (λ next. next ≡ progress.Ends) }
    {
        let raised = self.ball(ball)?;
        self.line(Line::Raise(raised))?;
        Ok(Progress::Ends)
    }

    /// The operand that names a term that is thrown, which is made where it is a compound with variables.
    fn ball(&mut self, ball: &Term) -> Result<Source, Memory>
        ensures { steps_of self.new.draft.lines ≡ steps_of self.old.draft.lines }
    {
        match ball {
            Term::Int(value) => Ok(Source::Int(*value)),
            Term::Atom(name) => Ok(Source::Atom(*name)),
            Term::Var(variable) => {
                see(&mut self.picture.facts, *variable);
                self.make_cells(&[*variable])?;
                Ok(operand(&self.picture, *variable))
            }
            Term::Compound(_, _) if ball.is_ground() => {
                Ok(Source::Pool(self.pool.number(self.alloc, ball)?))
            }
            Term::Compound(_, _) => self.made_ball(ball),
        }
    }

    /// Makes a compound with variables in a register.
    fn made_ball(&mut self, ball: &Term) -> Result<Source, Memory>
        ensures { steps_of self.new.draft.lines ≡ steps_of self.old.draft.lines }
    {
        let register = self.draft.take_register();
        make_term(
            self.alloc,
            ball,
            register,
            &mut self.picture,
            &mut self.pool,
            &mut self.draft,
        )?;
        Ok(Source::Register(register))
    }
}

/// The term `error(existence_error(procedure, Name/Arity), [])`.
fn existence_error(alloc: Global, name: Atom, arity: usize) -> Result<Term, Memory> {
    let arity = i64::try_from(arity).unwrap_or(i64::MAX);
    let indicator = compound(alloc, Atom::SLASH, Term::Atom(name), Term::Int(arity))?;
    let kind = Term::Atom(Atom::PROCEDURE);
    let error = compound(alloc, Atom::EXISTENCE_ERROR, kind, indicator)?;
    compound(alloc, Atom::ERROR, error, Term::Atom(Atom::NIL))
}

/// The compound of two arguments.
fn compound(alloc: Global, name: Atom, first: Term, second: Term) -> Result<Term, Memory> {
    let mut arguments = Vec::with_capacity(alloc, 2)?;
    arguments.push(first)?;
    arguments.push(second)?;
    Ok(Term::Compound(name, Args::from_vec(arguments)))
}
