ghost use Rattle.std.specs.Prelude.{◌≡◌, map, OnOk, IfOk};
ghost use Rattle.aq_term.specs.PlainOf.{plain};
ghost use Rattle.prolog_reader.specs.Lists.{list_term};

use crate::built::{Built, Measured, TermFault};
use crate::limits::{DEEPEST, MOST_ARGUMENTS};
use aq_term::args::Args;
use aq_term::args0::Args0;
use aq_term::atom::Atom;
use aq_term::memory::Memory;
use aq_term::term::Term;
use std::alloc::Global;

/// The arguments of a compound or the elements of a list, as far as they are read.
#[derive(Debug, Drop)]
pub struct Row {
    /// The items, as long as there is no fault. From then on no more is kept.
    pub items: Args0,
    /// The number of all items.
    pub count: u64,
    /// The depth of the compound or the list of these items, but for a list's tail.
    pub depth: u64,
    /// The gravest fault in an item, or of the row itself.
    pub fault: Option<TermFault>,
}

impl Row {
    ghost use Rattle.prolog_reader.specs.Values.{no_row, failed, with_term, with_item, with_argument, with_element, compound_of, graver_still, list_or, list_of};

    pub fn new(alloc: Global) -> Row
        ensures { result ≡ no_row }
    {
        Row {
            items: Args0::new(alloc),
            count: 0,
            depth: 1,
            fault: None,
        }
    }

    fn fail(&mut self, fault: TermFault)
        ensures { self.new ≡ failed self.old fault }
    {
        self.fault = Some(match self.fault {
            Some(other) => fault.and(other),
            None => fault,
        });
    }

    /// Puts a term at the end, which is `level` deeper there than by itself.
    fn push_term(&mut self, measured: Measured, level: u64) -> Result<(), Memory>
        ensures { OnOk result (self.new ≡ with_term self.old measured level) }
    {
        if self.fault.is_some() {
            return Ok(());
        }
        let Measured { term, depth } = measured;
        let depth = depth.saturating_add(level);
        if depth > DEEPEST {
            self.fail(TermFault::Depth);
            return Ok(());
        }
        self.items.push(term)?;
        self.depth = self.depth.max(depth);
        Ok(())
    }

    fn push(&mut self, built: Built, level: u64) -> Result<(), Memory>
        ensures { OnOk result (self.new ≡ with_item self.old built level) }
    {
        self.count = self.count.saturating_add(1);
        match built {
            Built::Faulty(fault) => {
                self.fail(fault);
                Ok(())
            }
            Built::Whole(measured) => self.push_term(measured, level),
        }
    }

    pub fn push_argument(&mut self, built: Built) -> Result<(), Memory>
        ensures { OnOk result (self.new ≡ with_argument self.old built) }
    {
        if self.count >= MOST_ARGUMENTS {
            self.fail(TermFault::ArityLimit);
        }
        self.push(built, 1)
    }

    pub fn push_element(&mut self, built: Built) -> Result<(), Memory>
        ensures { OnOk result (self.new ≡ with_element self.old built) }
    {
        let level = self.count.saturating_add(1);
        self.push(built, level)
    }

    /// The compound of this name and these arguments.
    pub fn into_compound(self, name: Atom) -> Built
        ensures { result ≡ compound_of name self }
    {
        let Row {
            items,
            count: _,
            depth,
            fault,
        } = self;
        match fault {
            Some(fault) => Built::Faulty(fault),
            None => {
                let args = Args::from_vec(items.into_vec());
                Built::of_depth(Term::Compound(name, args), depth)
            }
        }
    }

    /// The fault of the list of these elements and a tail with this fault.
    fn into_fault(self, tail: TermFault) -> TermFault
        ensures { result ≡ graver_still self.fault tail }
    {
        match self.fault {
            Some(fault) => tail.and(fault),
            None => tail,
        }
    }

    /// The list of these elements and this tail.
    pub fn into_list(self, alloc: Global, tail: Built) -> Result<Built, Memory>
        ensures { IfOk result (λ b. b ≡ list_of self tail) }
    {
        match tail {
            Built::Faulty(fault) => Ok(Built::Faulty(self.into_fault(fault))),
            Built::Whole(tail) => self.with_tail(alloc, tail),
        }
    }

    fn with_tail(self, alloc: Global, tail: Measured) -> Result<Built, Memory>
        ensures { IfOk result (λ b. b ≡ list_or self self.fault tail) }
    {
        let Row {
            items,
            count: _,
            depth,
            fault,
        } = self;
        if let Some(fault) = fault {
            return Ok(Built::Faulty(fault));
        }
        let Measured {
            term,
            depth: tail_depth,
        } = tail;
        let depth = depth.max(tail_depth.saturating_add(items.len() as u64));
        if depth > DEEPEST {
            return Ok(Built::Faulty(TermFault::Depth));
        }
        let term = list_of(alloc, items.into_vec(), term)?;
        Ok(Built::of_depth(term, depth))
    }
}

/// The list of these elements and this tail.
fn list_of(alloc: Global, mut items: Vec<Term>, tail: Term) -> Result<Term, Memory>
    ensures { IfOk result (λ t. t ≡ list_term (map plain items.items) tail) }
{
    let mut list = tail;
    while let Some(item) = items.pop() {
        let cell = vec![in alloc; item, list]?;
        list = Term::Compound(Atom::LIST, Args::from_vec(cell));
    }
    Ok(list)
}
