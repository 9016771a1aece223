ghost use Rattle.std.specs.Prelude.{◌≡◌, ◌<◌, [], Some, IfOk, OnOk, OnErr, fold, length, map, slice_get, unwrap_or};
ghost use Rattle.aq_term.specs.Atoms.{with_text, place_of};
ghost use Rattle.aq_term.specs.FixedNames.{fixed_names};

use crate::atom::{Atom, FIXED_NAMES};
use crate::memory::Memory;
use indexmap::IndexSet;
use std::alloc::Global;
use std::marker::Model;

/// A table of names, which only grows. Contracts see the list of their texts; a name's number is its place there.
#[derive(Debug, Drop)]
pub struct Atoms {
    alloc: Global,
    names: IndexSet<String>,
}

impl Model for Atoms {
    ghost use Rattle.std.specs.Prelude.{List, ℕ, map};
    ghost use Rattle.std.specs.String.{string_bytes};

    ghost Value = { List (List ℕ) };

    ghost view = { λ a. map string_bytes a.names.keys };
}

impl Atoms {
    /// A table of the fixed names alone.
    pub fn new(alloc: Global) -> Result<Atoms, Memory>
        ensures { IfOk result (λ atoms. atoms ≡ fixed_names) }
    {
        Atoms::of_texts(alloc, &FIXED_NAMES)
    }

    /// A table of these texts, each at its first place.
    fn of_texts(alloc: Global, texts: &[&str]) -> Result<Atoms, Memory>
        requires { length texts.now < 4294967295 }
        ensures { IfOk result (λ atoms. atoms ≡ fold with_text [] (map (λ t. t.now) texts.now)) }
    {
        let mut atoms = Atoms {
            alloc,
            names: IndexSet::new(alloc),
        };
        for text in texts {
            atoms.number(text)?;
        }
        Ok(atoms)
    }

    /// The number of a name. A name that is not there is added at the end. After want of memory the table is as it was.
    pub fn number(&mut self, text: &str) -> Result<Atom, Memory>
        requires { length self.old < 4294967295 }
        ensures table { OnOk result (self.new ≡ with_text self.old text.now) }
        ensures place { IfOk result (λ a. a.number ≡ place_of self.old text.now) }
        ensures there { IfOk result (λ a. slice_get self.new a.number ≡ Some text.now) }
        ensures err { OnErr result (self.new ≡ self.old) }
    {
        if let Some(number) = self.names.get_index_of(text) {
            return Ok(Atom {
                number: number as u32,
            });
        }
        let (number, _) = self.names.insert_full(String::from_str(self.alloc, text)?)?;
        Ok(Atom {
            number: number as u32,
        })
    }

    /// The text of a name of the table.
    pub fn text(&self, atom: Atom) -> &str
        requires { atom.number < length self.now }
        ensures { slice_get self.now atom.number ≡ Some result.now }
    {
        match self.names.get_index(atom.number as usize) {
            Some(text) => text.as_str(),
            None => unreachable!(),
        }
    }

    /// How many names the table has.
    pub fn len(&self) -> usize
        ensures { result ≡ length self.now }
    {
        self.names.len()
    }

    /// The text of a name, or no text where the name is not of the table.
    pub fn text_or_empty(&self, atom: Atom) -> &str
        ensures { result.now ≡ unwrap_or (slice_get self.now atom.number) [] }
    {
        match self.names.get_index(atom.number as usize) {
            Some(text) => text.as_str(),
            None => "",
        }
    }
}
