ghost use Rattle.std.specs.Prelude.{◌≡◌, length, map, IfOk};
ghost use Rattle.term_meaning.specs.Plain.{nodes_of_all, depth_of_all, are_ground, plains};
ghost use Rattle.aq_term.specs.PlainOf.{plain, capped};

use crate::memory::Memory;
use crate::term::Term;
use std::alloc::Global;
use std::marker::Model;

/// The arguments of a compound, 1 to 255. Contracts see the list of plain terms.
#[cycle(term)]
#[derive(Debug, Drop)]
pub struct Args {
    items: Vec<Term>,
}

impl Model for Args {
    ghost use Rattle.std.specs.Prelude.{List, map, sum_by};
    ghost use Rattle.term_meaning.specs.Plain.{Plain, nodes};
    ghost use Rattle.term_meaning.specs.PlainCode.{coded_plains};

    ghost Value = { List Plain };

    ghost coded = { coded_plains };

    ghost use Rattle.aq_term.specs.PlainOf.{plain};

    ghost view = { λ a. map plain a.items.items };

    ghost size = { sum_by nodes };

    ghost use Rattle.aq_term.specs.ArgsFall.{args_fall};

    ghost size_decreases = { λ a h. args_fall a };
}

impl Args {
    /// The arguments in this order, with no copy.
    pub fn from_vec(items: Vec<Term>) -> Args
        ensures { result ≡ map plain items.items }
    {
        Args { items }
    }

    /// The terms, with no copy.
    pub fn into_vec(self) -> Vec<Term>
        ensures { map plain result.items ≡ self }
    {
        let Args { items } = self;
        items
    }

    pub fn as_slice(&self) -> &[Term]
        ensures { map plain result.now ≡ self.now }
    {
        self.items.as_slice()
    }

    pub fn len(&self) -> usize
        ensures { result ≡ length self.now }
    {
        self.items.len()
    }

    /// How many nodes all terms have together, or the greatest `u64` where there are more.
    #[cycle(nodes)]
    pub fn nodes(&self) -> u64
        ensures { result ≡ capped (nodes_of_all (plains self.now)) }
    {
        let mut total: u64 = 0;
        for term in self.items.as_slice() {
            total = total.saturating_add(term.nodes());
        }
        total
    }

    /// The depth of the deepest term, or 0 where there is none, or the greatest `u64` where it is more.
    #[cycle(depth)]
    pub fn depth(&self) -> u64
        ensures { result ≡ capped (depth_of_all (plains self.now)) }
    {
        let mut deepest: u64 = 0;
        for term in self.items.as_slice() {
            deepest = deepest.max(term.depth());
        }
        deepest
    }

    /// Whether no variable is in any term.
    #[cycle(is_ground)]
    pub fn are_ground(&self) -> bool
        ensures { result ≡ are_ground (plains self.now) }
    {
        for term in self.items.as_slice() {
            if !term.is_ground() {
                return false;
            }
        }
        true
    }

    /// Terms that are equal to these.
    #[cycle(copy)]
    pub fn copy(&self, alloc: Global) -> Result<Args, Memory>
        ensures { IfOk result (λ args. args ≡ self.now) }
    {
        let mut items = Vec::with_capacity(alloc, self.items.len())?;
        for term in self.items.as_slice() {
            items.push(term.copy(alloc)?)?;
        }
        Ok(Args { items })
    }
}
