use crate::pending::Pending;
use aq_term::memory::Memory;
use std::alloc::Global;

/// A goal and the goals after it.
#[derive(Clone, Copy)]
pub struct Link<'p> {
    pub pending: Pending<'p>,
    /// The number of choices to which a cut of the goal goes back.
    pub depth: usize,
    /// The place of the goals after it, where there are any.
    pub next: Option<usize>,
}

/// The lists of goals of a run, which share their ends.
#[derive(Drop)]
pub struct Goals<'p> {
    links: Vec<Link<'p>>,
}

impl<'p> Goals<'p> {
    pub fn new(alloc: Global) -> Goals<'p> {
        Goals {
            links: Vec::new(alloc),
        }
    }

    /// The place of a list that begins with this goal.
    pub fn put(&mut self, link: Link<'p>) -> Result<Option<usize>, Memory> {
        let place = self.links.len();
        self.links.push(link)?;
        Ok(Some(place))
    }

    /// The first goal of the list at a place.
    pub fn get(&self, place: usize) -> Option<Link<'p>> {
        self.links.get(place).copied()
    }

    pub fn len(&self) -> usize {
        self.links.len()
    }

    /// Forgets the lists made since there were so many.
    pub fn truncate(&mut self, len: usize) {
        self.links.truncate(len);
    }

    /// How many choices are older than the catcher that guards the first goals of a list.
    pub fn first_leave(&self, list: Option<usize>) -> Option<usize> {
        let mut list = list;
        for _ in 0..self.links.len() {
            let link = self.get(list?)?;
            if let Pending::Leave(older) = link.pending {
                return Some(older);
            }
            list = link.next;
        }
        None
    }
}
