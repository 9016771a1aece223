ghost use Rattle.std.specs.Prelude.{◌≡◌, ◌<◌, ◌≤◌};

use aq_term::memory::Memory;
use std::alloc::Global;
use std::collections::HashMap;

/// The first register that gets another number.
pub const FIRST: u16 = 64;

/// The new numbers of a procedure's registers. Those below r64 keep their numbers.
#[derive(Drop)]
pub struct Renaming {
    /// The new numbers, counted from r64.
    given: HashMap<u16, u16>,
}

impl Renaming {
    ghost use Rattle.reg_alloc.specs.NewNumber.{new_number};

    pub fn new(alloc: Global) -> Renaming {
        Renaming {
            given: HashMap::new(alloc),
        }
    }

    /// Whether a register has its new number.
    pub fn has(&self, register: u16) -> bool {
        self.given.contains_key(&register)
    }

    /// Gives a register the number that is so many above r64.
    pub fn give(&mut self, register: u16, above: u16) -> Result<(), Memory> {
        self.given.insert(register, above)?;
        Ok(())
    }

    /// How far above r64 the number is that a register was given.
    pub fn above(&self, register: u16) -> Option<u16> {
        self.given.get(&register).copied()
    }

    /// The new number of a register.
    pub fn register(&self, register: u16) -> u16
        ensures { result ≡ new_number self.now register }
    {
        if register < FIRST {
            return register;
        }
        match self.given.get(&register) {
            Some(above) => FIRST.saturating_add(*above),
            None => register,
        }
    }
}
