ghost use Rattle.std.specs.Prelude.{◌≡◌, ◌++◌, ◌∷◌, [], OnOk, slice_get, slice_set};

use crate::argument::Argument;
use aq_term::memory::Memory;
use std::alloc::Global;
use std::marker::Model;

/// What the state says of each argument of the procedure, by its number. Contracts see the list of that.
#[derive(Debug, Drop)]
pub struct Arguments {
    items: Vec<Argument>,
}

impl Model for Arguments {
    ghost use Rattle.std.specs.Prelude.{List};
    ghost use Rattle.bam_types.specs.declared.argument.Argument.{Argument};

    ghost Value = { List Argument };

    ghost view = { λ a. a.items.items };
}

impl Arguments {
    pub fn new(alloc: Global) -> Arguments
        ensures { result ≡ [] }
    {
        Arguments {
            items: Vec::new(alloc),
        }
    }

    /// Takes all arguments out.
    pub fn clear(&mut self)
        ensures { self.new ≡ [] }
    {
        self.items.clear();
    }

    /// Puts an argument at the end.
    pub fn push(&mut self, argument: Argument) -> Result<(), Memory>
        ensures { OnOk result (self.new ≡ self.old ++ argument ∷ []) }
    {
        self.items.push(argument)?;
        Ok(())
    }

    /// What the state says of the argument of this number.
    pub fn get(&self, number: usize) -> Option<Argument>
        ensures { result ≡ slice_get self.now number }
    {
        self.items.get(number).copied()
    }

    /// Changes what the state says of an argument. Where there is none of the number, nothing changes.
    pub fn set(&mut self, number: usize, argument: Argument)
        ensures { self.new ≡ slice_set self.old number argument }
    {
        if number < self.items.len() {
            self.items[number] = argument;
        }
    }

    pub fn as_slice(&self) -> &[Argument]
        ensures { result.now ≡ self.now }
    {
        self.items.as_slice()
    }
}
