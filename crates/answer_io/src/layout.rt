//! Where the variables of a query stand. A compound takes a word for its functor, none where it is a list cell, and then one for each
//! argument; behind these come the words of its compound arguments, from left to right, each in the same way. An argument of the
//! query that is a variable at its first occurrence takes a word too. A variable's own cell is its first one in this order.
ghost use Rattle.std.specs.Prelude.{◌≡◌, IfOk, length};

use crate::cells::Cells;
use aq_term::atom::Atom;
use aq_term::memory::Memory;
use aq_term::term::Term;
use std::alloc::Global;

/// The place of a variable that has none yet.
const NOWHERE: u64 = u64::MAX;

/// The own cells of the variables below `variables`, where these are the arguments of a query.
pub fn own_cells(alloc: Global, args: &[Term], variables: usize) -> Result<Cells, Memory>
    ensures { IfOk result (λ cells. length cells ≡ variables) }
{
    let mut layout = Layout {
        cells: vec![in alloc; NOWHERE; variables]?,
        words: 0,
    };
    for arg in args {
        layout.argument(arg);
    }
    Ok(layout.into_cells())
}

/// How many words a compound takes before its arguments' words: none where it is a list cell.
pub fn functor_words(name: Atom, arity: usize) -> u64 {
    if name == Atom::LIST && arity == 2 {
        0
    } else {
        1
    }
}

/// The words laid out so far, and where the variables among them stand.
#[derive(Drop)]
struct Layout {
    cells: Vec<u64>,
    words: u64,
}

impl Layout {
    fn into_cells(self) -> Cells
        ensures { length result ≡ length self.cells.items }
    {
        let Layout { cells, words: _ } = self;
        Cells::from_vec(cells)
    }

    /// Lays out an argument of the query.
    fn argument(&mut self, term: &Term)
        ensures { length self.new.cells.items ≡ length self.old.cells.items }
    {
        match term {
            Term::Var(number) => self.lone_variable(*number),
            _ => self.compound(term),
        }
    }

    /// Lays out a variable that is an argument of the query.
    fn lone_variable(&mut self, number: u32)
        ensures { length self.new.cells.items ≡ length self.old.cells.items }
    {
        let cell = self.words;
        if self.settle(number, cell) {
            self.words = cell.saturating_add(1);
        }
    }

    /// Makes this the variable's own cell where it has none, and answers whether it had none.
    fn settle(&mut self, number: u32, cell: u64) -> bool
        ensures { length self.new.cells.items ≡ length self.old.cells.items }
    {
        match self.cells.get_mut(number as usize) {
            Some(own) if *own == NOWHERE => {
                *own = cell;
                true
            }
            _ => false,
        }
    }

    /// Lays out a term where it is a compound. It goes as deep in the stack as the term, which is at most 4,096 deep where it was
    /// read.
    #[tactic(auto, using(source_program::proofs::TermParts::argument_falls))]
    fn compound(&mut self, term: &Term)
        ensures { length self.new.cells.items ≡ length self.old.cells.items }
    {
        let Term::Compound(name, args) = term else {
            return;
        };
        let args = args.as_slice();
        let first = self.words.saturating_add(functor_words(*name, args.len()));
        self.words = first.saturating_add(args.len() as u64);
        self.own_words(first, args);
        for argument in args {
            self.compound(argument);
        }
    }

    /// Gives the variables among a compound's arguments their own cells, where they have none: the first argument's word stands at
    /// `first`.
    fn own_words(&mut self, first: u64, args: &[Term])
        ensures { length self.new.cells.items ≡ length self.old.cells.items }
    {
        let mut cell = first;
        for argument in args {
            if let Term::Var(number) = argument {
                self.settle(*number, cell);
            }
            cell = cell.saturating_add(1);
        }
    }
}
