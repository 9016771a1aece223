//! Built-ins, whose arguments stand in the registers from 0 on.
use crate::engine::Engine;
use crate::halt::Halt;
use crate::output::Output;
use aq_term::atom::Atom;
use aq_term::builtin::Builtin;
use machine_terms::arg::arg;
use machine_terms::compare::compare;
use machine_terms::copy_term::copy_term;
use machine_terms::functor::functor;
use machine_terms::outcome::Outcome;
use machine_terms::put_char::put_char;
use machine_terms::type_test::{
    is_atom, is_atomic, is_compound, is_integer, is_no_variable, is_variable,
};
use machine_terms::univ::univ;
use tag_word::tag::Tag;
use tag_word::word::Word;

impl<'a> Engine<'a> {
    /// Does a built-in. The machine has instructions of their own for those that are missing here.
    pub fn builtin(&mut self, builtin: Builtin, left: &mut u64) -> Result<(), Halt> {
        match builtin {
            Builtin::Var => succeed_where(is_variable(self.first()?)),
            Builtin::Nonvar => succeed_where(is_no_variable(self.first()?)),
            Builtin::Atom => succeed_where(is_atom(self.first()?)),
            Builtin::Integer | Builtin::Number => succeed_where(is_integer(self.first()?)),
            Builtin::Atomic => succeed_where(is_atomic(self.first()?)),
            Builtin::Compound => succeed_where(is_compound(self.first()?)),
            Builtin::TermLess => self.ordered(&[Atom::LESS], left),
            Builtin::TermAtMost => self.ordered(&[Atom::LESS, Atom::UNIFIES], left),
            Builtin::TermGreater => self.ordered(&[Atom::GREATER], left),
            Builtin::TermAtLeast => self.ordered(&[Atom::GREATER, Atom::UNIFIES], left),
            Builtin::Compare => self.compare(left),
            Builtin::Functor => self.functor(left),
            Builtin::Arg => self.arg(left),
            Builtin::Univ => self.univ(left),
            Builtin::CopyTerm => self.copy_term(left),
            Builtin::Write => self.write(Output::Plain),
            Builtin::Writeq => self.write(Output::Quoted),
            Builtin::Nl => Err(Halt::Writes(Output::NewLine)),
            Builtin::PutChar => self.put_char(left),
            _ => Err(Halt::Stray),
        }
    }

    /// Register 0's word, once references are followed.
    fn first(&self) -> Result<Word, Halt> {
        let word = self.registers.get(0)?;
        self.deref(word)
    }

    /// The order of two registers' terms.
    fn order(&mut self, first: u16, second: u16, left: &mut u64) -> Result<Word, Halt> {
        let first = self.registers.get(first)?;
        let second = self.registers.get(second)?;
        match compare(&mut self.store, self.atoms, &[first, second], left) {
            Outcome::Made(order) => Ok(order),
            outcome => Err(self.halt_of(outcome)),
        }
    }

    /// Fails where the order of the terms of registers 0 and 1 is none of these.
    fn ordered(&mut self, orders: &[Atom], left: &mut u64) -> Result<(), Halt> {
        let order = self.order(0, 1, left)?;
        if order.tag() != Tag::Atm {
            return Err(Halt::Stray);
        }
        for atom in orders {
            if order.value() == u64::from(atom.number) {
                return Ok(());
            }
        }
        Err(Halt::Fails)
    }

    fn compare(&mut self, left: &mut u64) -> Result<(), Halt> {
        let order = self.order(1, 2, left)?;
        self.unify_with(0, order, left)
    }

    /// The term itself, or its name and then its arity, are unified with the registers.
    fn functor(&mut self, left: &mut u64) -> Result<(), Halt> {
        let args = self.three()?;
        match functor(&mut self.store, self.atoms, &args, left) {
            Outcome::Made(term) => self.unify_with(0, term, left),
            Outcome::MadeTwo(name, arity) => {
                self.unify_with(1, name, left)?;
                self.unify_with(2, arity, left)
            }
            outcome => Err(self.halt_of(outcome)),
        }
    }

    fn arg(&mut self, left: &mut u64) -> Result<(), Halt> {
        let args = self.three()?;
        match arg(&mut self.store, self.atoms, &args, left) {
            Outcome::Made(argument) => self.unify_with(2, argument, left),
            outcome => Err(self.halt_of(outcome)),
        }
    }

    /// The list of a term is unified with register 1, and the term of a list with register 0.
    fn univ(&mut self, left: &mut u64) -> Result<(), Halt> {
        let term = self.registers.get(0)?;
        let list = self.registers.get(1)?;
        let made_for = if is_variable(self.deref(term)?) { 0 } else { 1 };
        match univ(&mut self.store, self.atoms, &[term, list], left) {
            Outcome::Made(made) => self.unify_with(made_for, made, left),
            outcome => Err(self.halt_of(outcome)),
        }
    }

    fn copy_term(&mut self, left: &mut u64) -> Result<(), Halt> {
        let term = self.registers.get(0)?;
        self.registers.get(1)?;
        match copy_term(&mut self.store, self.atoms, &[term], left) {
            Outcome::Made(copy) => self.unify_with(1, copy, left),
            outcome => Err(self.halt_of(outcome)),
        }
    }

    /// Register 0 is there to be written.
    fn write(&self, output: Output) -> Result<(), Halt> {
        self.registers.get(0)?;
        Err(Halt::Writes(output))
    }

    fn put_char(&mut self, left: &mut u64) -> Result<(), Halt> {
        let character = self.registers.get(0)?;
        match put_char(&mut self.store, self.atoms, &[character], left) {
            Outcome::Made(_) => Err(Halt::Writes(Output::Character)),
            outcome => Err(self.halt_of(outcome)),
        }
    }

    /// The words of registers 0 to 2.
    fn three(&self) -> Result<[Word; 3], Halt> {
        Ok([
            self.registers.get(0)?,
            self.registers.get(1)?,
            self.registers.get(2)?,
        ])
    }
}

/// Fails where a test does not hold.
fn succeed_where(holds: bool) -> Result<(), Halt> {
    if holds { Ok(()) } else { Err(Halt::Fails) }
}
