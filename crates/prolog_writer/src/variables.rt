ghost use Rattle.std.specs.Prelude.{◌≡◌, ◌==◌, [], ◌∷◌, OnOk};
ghost use Rattle.std.specs.List.{position_or_len};
ghost use Rattle.term_meaning.specs.Plain.{variables, variables_of_all, plains};
ghost use Rattle.term_text.specs.Written.{noted};
ghost use Rattle.aq_term.specs.PlainOf.{plain};

use aq_term::args::Args;
use aq_term::memory::Memory;
use aq_term::term::Term;
use indexmap::IndexSet;
use std::alloc::Global;
use std::marker::Model;

/// The variables of terms in order of first occurrence. Contracts see the list of them.
#[derive(Debug, Drop)]
pub struct Variables {
    numbers: IndexSet<u32>,
}

impl Model for Variables {
    ghost use Rattle.std.specs.Prelude.{List, ℕ};

    ghost Value = { List ℕ };

    ghost view = { λ v. v.numbers.keys };
}

impl Variables {
    pub fn new(alloc: Global) -> Variables
        ensures { result ≡ [] }
    {
        Variables {
            numbers: IndexSet::new(alloc),
        }
    }

    /// Adds the variables of a term.
    #[cycle(note)]
    pub fn note(&mut self, term: &Term) -> Result<(), Memory>
        ensures { OnOk result (self.new ≡ noted self.old (variables (plain term.now))) }
    {
        match term {
            Term::Var(number) => self.add(*number),
            Term::Compound(_, args) => self.note_all(args),
            _ => Ok(()),
        }
    }

    /// Adds the variables of arguments.
    #[cycle(note)]
    fn note_all(&mut self, args: &Args) -> Result<(), Memory>
        ensures { OnOk result (self.new ≡ noted self.old (variables_of_all (plains args.now))) }
    {
        for arg in args.as_slice() {
            self.note(arg)?;
        }
        Ok(())
    }

    fn add(&mut self, number: u32) -> Result<(), Memory>
        ensures { OnOk result (self.new ≡ noted self.old (number ∷ [])) }
    {
        self.numbers.insert_full(number)?;
        Ok(())
    }

    /// The place of a variable, from 0, or how many there are where it is none of them.
    pub fn place(&self, number: u32) -> usize
        ensures { result ≡ position_or_len (λ w. number == w) self.now }
    {
        match self.numbers.get_index_of(&number) {
            Some(place) => place,
            None => self.numbers.len(),
        }
    }
}
