ghost use Rattle.std.specs.Prelude.{◌≡◌, ◌+◌, ◌<◌, ◌≤◌, IfOk, OnOk, OnErr, length, map};
ghost use Rattle.aq_term.specs.PlainOf.{plain};
ghost use Rattle.kernel_form.specs.Own.{AreTermsBelow, IsTermBelow};

use aq_term::args::Args;
use aq_term::memory::Memory;
use aq_term::term::Term;
use std::alloc::Global;
use std::marker::Model;

/// The number of a variable in a kernel clause.
#[derive(Clone, Copy)]
struct Numbered {
    /// The round of the clause in which it was numbered last, or 0.
    round: u64,
    number: u32,
}

const UNNUMBERED: Numbered = Numbered {
    round: 0,
    number: 0,
};

/// Numbers the variables of one kernel clause after the other, in order of first occurrence. Contracts see the next number.
#[derive(Drop)]
pub struct ClauseVariables {
    alloc: Global,
    numbered: Vec<Numbered>,
    round: u64,
    next: u32,
}

impl Model for ClauseVariables {
    ghost use Rattle.std.specs.Prelude.{ℕ};
    ghost use Rattle.std.specs.Coded.{coded_ℕ};
    ghost use Rattle.kernel_form.specs.Numbering.{AreNumbered};

    ghost Value = { ℕ };

    ghost coded = { coded_ℕ };

    ghost view = { λ v. v.next };

    ghost invariant = { λ v. AreNumbered v.round v.next v.numbered.items };
}

impl ClauseVariables {
    /// For the variables below `variables` of an outline.
    pub fn new(alloc: Global, variables: usize) -> Result<ClauseVariables, Memory>
        ensures { IfOk result (λ made. made ≡ 0) }
    {
        Ok(ClauseVariables {
            alloc,
            numbered: vec![in alloc; UNNUMBERED; variables]?,
            round: 1,
            next: 0,
        })
    }

    /// Begins a new clause with the variables of its head, which are distinct and get the first numbers. More rounds than a `u64`
    /// can count are want of memory.
    pub fn begin(&mut self, head: &[u32]) -> Result<(), Memory>
        ensures { OnOk result (self.new ≡ length head.now) }
    {
        let Some(round) = self.round.checked_add(1) else {
            return Err(Memory);
        };
        self.round = round;
        self.next = 0;
        for variable in head {
            self.give(*variable)?;
        }
        Ok(())
    }

    /// How many variables the clause has so far.
    pub fn count(&self) -> u32
        ensures { result ≡ self.now }
    {
        self.next
    }

    /// The number of a further variable, which the outline does not have. More than a `u32` can number are want of memory.
    pub fn further(&mut self) -> Result<u32, Memory>
        ensures number { IfOk result (λ number. number ≡ self.old) }
        ensures next { OnOk result (self.new ≡ self.old + 1) }
        ensures err { OnErr result (self.new ≡ self.old) }
    {
        let number = self.next;
        let Some(next) = number.checked_add(1) else {
            return Err(Memory);
        };
        self.next = next;
        Ok(number)
    }

    /// Gives the next number to a variable of the outline.
    fn give(&mut self, variable: u32) -> Result<u32, Memory>
        ensures number { IfOk result (λ number. number ≡ self.old) }
        ensures next { OnOk result (self.new ≡ self.old + 1) }
    {
        let number = self.further()?;
        let round = self.round;
        if let Some(known) = self.numbered.get_mut(variable as usize) {
            *known = Numbered { round, number };
        }
        Ok(number)
    }

    /// The number of a variable of the outline.
    pub fn number(&mut self, variable: u32) -> Result<u32, Memory>
        ensures below { IfOk result (λ number. number < self.new) }
        ensures grows { OnOk result (self.old ≤ self.new) }
    {
        if let Some(known) = self.numbered.get(variable as usize) {
            if known.round == self.round {
                return Ok(known.number);
            }
        }
        self.give(variable)
    }

    /// The variables of the outline with their numbers, as terms.
    pub fn numbers(&mut self, variables: &[u32]) -> Result<Vec<Term>, Memory>
        ensures below { IfOk result (λ terms. AreTermsBelow self.new (map plain terms.items)) }
        ensures grows { OnOk result (self.old ≤ self.new) }
        ensures count { IfOk result (λ terms. length terms.items ≡ length variables.now) }
    {
        let mut terms = Vec::with_capacity(self.alloc, variables.len())?;
        for variable in variables {
            terms.push(Term::Var(self.number(*variable)?))?;
        }
        Ok(terms)
    }

    /// A copy of a term with the numbers of its variables. It goes as deep as the term, which is at most 4,096 deep where it was
    /// read.
    #[tactic(auto, using(crate::proofs::TermParts::argument_falls))]
    pub fn term(&mut self, term: &Term) -> Result<Term, Memory>
        ensures below { IfOk result (λ copy. IsTermBelow self.new (plain copy)) }
        ensures grows { OnOk result (self.old ≤ self.new) }
    {
        match term {
            Term::Var(variable) => Ok(Term::Var(self.number(*variable)?)),
            Term::Int(value) => Ok(Term::Int(*value)),
            Term::Atom(name) => Ok(Term::Atom(*name)),
            Term::Compound(name, arguments) => {
                let mut copies = Vec::with_capacity(self.alloc, arguments.len())?;
                for argument in arguments.as_slice() {
                    copies.push(self.term(argument)?)?;
                }
                Ok(Term::Compound(*name, Args::from_vec(copies)))
            }
        }
    }
}
