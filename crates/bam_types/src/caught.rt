ghost use Rattle.std.specs.Prelude.{◌≡◌, [], Some, OnOk, slice_set};
ghost use Rattle.bam_types.specs.Weakening.{flat_at, padded};

use aq_term::memory::Memory;
use std::alloc::Global;
use std::marker::Model;

/// By the number of a ball's label, the number that the `catch` lines before name with it. Contracts see the list of that; a
/// label past its end was not named.
#[derive(Debug, Drop)]
pub struct Caught {
    numbers: Vec<Option<u16>>,
}

impl Model for Caught {
    ghost use Rattle.std.specs.Prelude.{List, Option, ℕ};

    ghost Value = { List (Option ℕ) };

    ghost view = { λ a. a.numbers.items };
}

impl Caught {
    pub fn new(alloc: Global) -> Caught
        ensures { result ≡ [] }
    {
        Caught {
            numbers: Vec::new(alloc),
        }
    }

    /// Forgets all labels.
    pub fn clear(&mut self)
        ensures { self.new ≡ [] }
    {
        self.numbers.clear();
    }

    /// The number that is named with a label.
    pub fn at(&self, label: u32) -> Option<u16>
        ensures { result ≡ flat_at self.now label }
    {
        match self.numbers.get(label as usize) {
            Some(number) => *number,
            None => None,
        }
    }

    /// Notes that a label, of so many ones, is named with a number.
    pub fn name(&mut self, labels: usize, label: u32, number: u16) -> Result<(), Memory>
        ensures { OnOk result (self.new ≡ slice_set (padded self.old labels) label (Some number)) }
    {
        if self.numbers.len() < labels {
            self.numbers.resize(labels, None)?;
        }
        let at = label as usize;
        if at < self.numbers.len() {
            self.numbers[at] = Some(number);
        }
        Ok(())
    }
}
