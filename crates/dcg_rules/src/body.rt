ghost use Rattle.std.specs.Prelude.{◌≡◌, ◌+◌, ◌≤◌, ℕ, Some, None, IfOk, IsErrOf, option_and_then};
ghost use Rattle.aq_term.specs.PlainOf.{plain};
ghost use Rattle.term_meaning.specs.Plain.{atom, compound, plains};
ghost use Rattle.dcg_rules.specs.Grammar as grammar;

use crate::build::{MOST_ARGUMENTS, binary, keeping, same_list, unary, with_lists};
use crate::fault::DcgFault;
use crate::operand_list::{Operands, by_number};
use aq_term::args::Args;
use aq_term::atom::Atom;
use aq_term::memory::Memory;
use aq_term::term::Term;
use std::alloc::Global;

/// The body of a grammar rule as it becomes goals. It numbers the new variables.
#[derive(Drop)]
pub struct BodyGoals {
    alloc: Global,
    /// The first number that no variable has.
    pub next: u32,
}

impl BodyGoals {
    /// New variables are numbered from `next` on.
    pub fn new(alloc: Global, next: u32) -> BodyGoals
        ensures { result.next ≡ next }
    {
        BodyGoals { alloc, next }
    }

    /// A new variable. More variables than a `u32` can number are want of memory.
    pub fn fresh(&mut self) -> Result<u32, Memory>
        ensures made { IfOk result (λ n. (n ≡ self.old.next) × (self.new.next ≡ self.old.next + 1)) }
        ensures numbers { self.old.next ≤ self.new.next }
    {
        let number = self.next;
        let Some(next) = number.checked_add(1) else {
            return Err(Memory);
        };
        self.next = next;
        Ok(number)
    }

    /// An atom: a cut, the empty list, or a nonterminal.
    fn atom_goal(&self, name: Atom, from: u32, to: u32) -> Result<Term, Memory>
        ensures { IfOk result (λ t. (next : ℕ) → grammar.goal_of (atom name.number) from to next ≡ Some (plain t, next)) }
    {
        if name == Atom::CUT {
            keeping(self.alloc, Term::Atom(name), from, to)
        } else if name == Atom::NIL {
            same_list(self.alloc, from, Term::Var(to))
        } else {
            binary(self.alloc, name, Term::Var(from), Term::Var(to))
        }
    }

    /// A goal of the program, which takes nothing off the list.
    fn curly(&self, goal: &Term, from: u32, to: u32) -> Result<Term, Memory>
        ensures { IfOk result (λ t. plain t ≡ grammar.keeping (plain goal.now) from to) }
    {
        let goal = goal.copy(self.alloc)?;
        keeping(self.alloc, goal, from, to)
    }

    /// A list of terminals, which stand at the front of the list.
    fn terminals(&self, list: &Term, from: u32, to: u32) -> Result<Term, DcgFault>
        ensures made { IfOk result (λ t. option_and_then (λ u. Some (grammar.same_list from u)) (grammar.with_end to (plain list.now)) ≡ Some (plain t)) }
        ensures body { IsErrOf result DcgFault.Body → grammar.with_end to (plain list.now) ≡ None }
        ensures no_head { IsErrOf result DcgFault.Head → ⊥ }
    {
        let behind = list_with_end(self.alloc, list, to)?;
        Ok(same_list(self.alloc, from, behind)?)
    }

    /// Another compound gets the two lists as arguments.
    #[tactic(auto, using(crate::proofs::GrammarLemmas::count_of_plains))]
    fn nonterminal(
        &self,
        name: Atom,
        arguments: &Args,
        from: u32,
        to: u32,
    ) -> Result<Term, DcgFault>
        ensures made { IfOk result (λ t. grammar.nonterminal name.number (plains arguments.now) from to ≡ Some (plain t)) }
        ensures body { IsErrOf result DcgFault.Body → grammar.nonterminal name.number (plains arguments.now) from to ≡ None }
        ensures no_head { IsErrOf result DcgFault.Head → ⊥ }
    {
        if arguments.len() > MOST_ARGUMENTS {
            return Err(DcgFault::Body);
        }
        Ok(with_lists(self.alloc, name, arguments.as_slice(), from, to)?)
    }

    /// The goal that takes what `part` derives off the front of the list `from`, so that the list `to` is left. It goes
    /// as deep as the term, which is at most 4,096 deep where it was read.
    #[cycle(goal)]
    #[tactic(auto, using(crate::proofs::GrammarLemmas::goal_of_others))]
    pub fn goal(&mut self, part: &Term, from: u32, to: u32) -> Result<Term, DcgFault>
        ensures made { IfOk result (λ t. grammar.goal_of (plain part.now) from to self.old.next ≡ Some (plain t, self.new.next)) }
        ensures body { IsErrOf result DcgFault.Body → grammar.goal_of (plain part.now) from to self.old.next ≡ None }
        ensures no_head { IsErrOf result DcgFault.Head → ⊥ }
        ensures numbers { self.old.next ≤ self.new.next }
    {
        match part {
            Term::Var(_) | Term::Int(_) => Err(DcgFault::Body),
            Term::Atom(name) => Ok(self.atom_goal(*name, from, to)?),
            Term::Compound(name, arguments) => match by_number(arguments) {
                Operands::One(inner) => match *name {
                    Atom::NOT_PROVABLE => self.negation(inner, from, to),
                    Atom::CURLY => Ok(self.curly(inner, from, to)?),
                    _ => self.nonterminal(*name, arguments, from, to),
                },
                Operands::Two(left, right) => match *name {
                    Atom::COMMA | Atom::THEN => self.sequence(*name, left, right, from, to),
                    Atom::SEMICOLON => self.choice(left, right, from, to),
                    Atom::LIST => self.terminals(part, from, to),
                    _ => self.nonterminal(*name, arguments, from, to),
                },
                Operands::Others => self.nonterminal(*name, arguments, from, to),
            },
        }
    }

    /// `left` and then `right`, with a new list between them.
    #[cycle(goal)]
    fn sequence(
        &mut self,
        name: Atom,
        left: &Term,
        right: &Term,
        from: u32,
        to: u32,
    ) -> Result<Term, DcgFault>
        ensures made { IfOk result (λ t. grammar.joined name.number (grammar.goal_of (plain left.now) from self.old.next (self.old.next + 1)) (λ n. grammar.goal_of (plain right.now) self.old.next to n) ≡ Some (plain t, self.new.next)) }
        ensures body { IsErrOf result DcgFault.Body → grammar.joined name.number (grammar.goal_of (plain left.now) from self.old.next (self.old.next + 1)) (λ n. grammar.goal_of (plain right.now) self.old.next to n) ≡ None }
        ensures no_head { IsErrOf result DcgFault.Head → ⊥ }
        ensures numbers { self.old.next ≤ self.new.next }
    {
        let middle = self.fresh()?;
        let left = self.goal(left, from, middle)?;
        let right = self.goal(right, middle, to)?;
        Ok(binary(self.alloc, name, left, right)?)
    }

    /// `left` or `right`, between the same lists.
    #[cycle(goal)]
    fn choice(&mut self, left: &Term, right: &Term, from: u32, to: u32) -> Result<Term, DcgFault>
        ensures made { IfOk result (λ t. grammar.joined grammar.semicolon (grammar.goal_of (plain left.now) from to self.old.next) (λ n. grammar.goal_of (plain right.now) from to n) ≡ Some (plain t, self.new.next)) }
        ensures body { IsErrOf result DcgFault.Body → grammar.joined grammar.semicolon (grammar.goal_of (plain left.now) from to self.old.next) (λ n. grammar.goal_of (plain right.now) from to n) ≡ None }
        ensures no_head { IsErrOf result DcgFault.Head → ⊥ }
        ensures numbers { self.old.next ≤ self.new.next }
    {
        let left = self.goal(left, from, to)?;
        let right = self.goal(right, from, to)?;
        Ok(binary(self.alloc, Atom::SEMICOLON, left, right)?)
    }

    /// Where `inner` derives nothing at the front of the list.
    #[cycle(goal)]
    fn negation(&mut self, inner: &Term, from: u32, to: u32) -> Result<Term, DcgFault>
        ensures made { IfOk result (λ t. grammar.negated from to (grammar.goal_of (plain inner.now) from self.old.next (self.old.next + 1)) ≡ Some (plain t, self.new.next)) }
        ensures body { IsErrOf result DcgFault.Body → grammar.goal_of (plain inner.now) from self.old.next (self.old.next + 1) ≡ None }
        ensures no_head { IsErrOf result DcgFault.Head → ⊥ }
        ensures numbers { self.old.next ≤ self.new.next }
    {
        let behind = self.fresh()?;
        let inner = self.goal(inner, from, behind)?;
        let negated = unary(self.alloc, Atom::NOT_PROVABLE, inner)?;
        Ok(keeping(self.alloc, negated, from, to)?)
    }
}

/// The list with the variable `to` as its end. A term that is no list is `Body`. It goes as deep as the list is long,
/// and that is at most 4,096 where the list was read.
#[tactic(auto, using(crate::proofs::GrammarLemmas::with_ends_of_others))]
fn list_with_end(alloc: Global, list: &Term, to: u32) -> Result<Term, DcgFault>
    ensures made { IfOk result (λ t. grammar.with_end to (plain list.now) ≡ Some (plain t)) }
    ensures body { IsErrOf result DcgFault.Body → grammar.with_end to (plain list.now) ≡ None }
    ensures no_head { IsErrOf result DcgFault.Head → ⊥ }
{
    match list {
        Term::Atom(name) if *name == Atom::NIL => Ok(Term::Var(to)),
        Term::Compound(name, arguments) => {
            let Operands::Two(first, rest) = by_number(arguments) else {
                return Err(DcgFault::Body);
            };
            if *name != Atom::LIST {
                return Err(DcgFault::Body);
            }
            let behind = list_with_end(alloc, rest, to)?;
            let first = first.copy(alloc)?;
            Ok(binary(alloc, Atom::LIST, first, behind)?)
        }
        _ => Err(DcgFault::Body),
    }
}
