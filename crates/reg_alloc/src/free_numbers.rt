use aq_term::memory::Memory;
use std::alloc::Global;
use std::cmp::Reverse;
use std::collections::BinaryHeap;

/// The numbers from 0 that no register holds.
#[derive(Drop)]
pub struct FreeNumbers {
    /// Those that were given back.
    given_back: BinaryHeap<Reverse<u16>>,
    /// From this number on all are free.
    next: u16,
}

impl FreeNumbers {
    /// All are free.
    pub fn new(alloc: Global) -> FreeNumbers {
        FreeNumbers {
            given_back: BinaryHeap::new(alloc),
            next: 0,
        }
    }

    /// Takes the least one. The greatest number of all is given again and again.
    pub fn take(&mut self) -> u16 {
        match self.given_back.pop() {
            Some(Reverse(number)) => number,
            None => {
                let number = self.next;
                self.next = number.saturating_add(1);
                number
            }
        }
    }

    /// Gives a number back that was taken.
    pub fn give_back(&mut self, number: u16) -> Result<(), Memory> {
        self.given_back.push(Reverse(number))?;
        Ok(())
    }
}
