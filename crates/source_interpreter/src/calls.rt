use crate::attempt::Attempt;
use crate::control::Here;
use crate::ending::End;
use crate::errors::no_procedure;
use crate::halt::Halt;
use crate::interpreter::Interpreter;
use crate::loading::{load, load_call};
use crate::pending::Pending;
use crate::step::Step;
use crate::unification::{Unified, unify};
use crate::value::Compound;
use aq_term::atom::Atom;
use aq_term::term::Term;
use source_program::program::Program;
use source_program::source_clause::SourceClause;

/// The clauses of a predicate, none where it has none.
fn clauses_of(program: &Program, name: Atom, arity: usize) -> &[SourceClause] {
    for predicate in program.predicates.as_slice() {
        if predicate.name == name && predicate.arity as usize == arity {
            return predicate.clauses.as_slice();
        }
    }
    &[]
}

/// Calls of predicates.
impl<'p> Interpreter<'p> {
    /// A call of the program becomes a trial of its clauses, or raises where there are none.
    pub(crate) fn call(
        &mut self,
        name: Atom,
        arguments: &'p [Term],
        here: Here,
    ) -> Result<Step, Halt> {
        let clauses = clauses_of(self.program, name, arguments.len());
        if clauses.is_empty() {
            let error = no_procedure(&mut self.terms, name, arguments.len())?;
            return self.raise(error, here.next);
        }
        let call = load_call(&mut self.terms, name, arguments, here.base)?;
        let entered = self.choices.len();
        let attempt = Attempt { call, clauses };
        Ok(Step::Went(self.put(Pending::Try(attempt), entered, here.next)?))
    }

    /// Tries the first clause that is left, with a choice where there are more.
    pub(crate) fn try_clause(
        &mut self,
        attempt: Attempt<'p>,
        depth: usize,
        next: Option<usize>,
    ) -> Result<Step, Halt> {
        let [clause, clauses @ ..] = attempt.clauses else {
            return Err(Halt::Lost);
        };
        if !clauses.is_empty() {
            let rest = Pending::Try(Attempt {
                call: attempt.call,
                clauses,
            });
            let other = self.put(rest, depth, next)?;
            self.choose(other, None)?;
        }
        let base = self.terms.variables(clause.variables as usize)?;
        match self.unify_head(attempt.call, clause.head.as_slice(), base)? {
            Unified::Done => {
                let here = Here { base, depth, next };
                Ok(Step::Went(self.put_goal(&clause.body, here)?))
            }
            Unified::Clash => Ok(self.back()),
            Unified::Occurs => Ok(Step::Ended(End::Occurs)),
        }
    }

    /// Unifies the arguments of a call with those of a head, from left to right.
    fn unify_head(&mut self, call: Compound, head: &[Term], base: usize) -> Result<Unified, Halt> {
        for (place, term) in head.iter().enumerate() {
            let argument = self.terms.argument(call, place).ok_or(Halt::Lost)?;
            let term = load(&mut self.terms, term, base)?;
            let unified = unify(&mut self.terms, argument, term)?;
            if unified != Unified::Done {
                return Ok(unified);
            }
        }
        Ok(Unified::Done)
    }
}
