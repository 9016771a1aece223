ghost use Rattle.std.specs.Prelude.{◌≡◌, ◌++◌, ◌∷◌, ◌==◌, [], OnOk, OnErr, length};
ghost use Rattle.rule_code.specs.Passes.{row_at};

use crate::goals::Goals;
use aq_term::memory::Memory;
use std::alloc::Global;
use std::marker::Model;

/// The bodies of the clauses of one name, in text order. Contracts see the list of them.
#[derive(Debug, Drop)]
pub struct Bodies {
    items: Vec<Goals>,
}

impl Model for Bodies {
    ghost use Rattle.std.specs.Prelude.{List};
    ghost use Rattle.rule_code.specs.CodeAt.{Body};

    ghost Value = { List Body };

    ghost view = { λ a. a.items.items };
}

impl Bodies {
    pub fn new(alloc: Global) -> Bodies
        ensures { result ≡ [] }
    {
        Bodies {
            items: Vec::new(alloc),
        }
    }

    pub fn as_slice(&self) -> &[Goals]
        ensures { result.now ≡ self.now }
    {
        self.items.as_slice()
    }

    pub fn is_empty(&self) -> bool
        ensures { result ≡ (length self.now == 0) }
    {
        self.items.is_empty()
    }

    /// Puts a body at the end. After want of memory the list is as it was.
    pub fn push(&mut self, body: Goals) -> Result<(), Memory>
        ensures ok { OnOk result (self.new ≡ self.old ++ body ∷ []) }
        ensures err { OnErr result (self.new ≡ self.old) }
    {
        self.items.push(body)?;
        Ok(())
    }
}

/// The bodies of a number, or none where it is no number of the table.
pub fn bodies_at(rows: &[Bodies], number: u32) -> &[Goals]
    ensures { result.now ≡ row_at rows.now number }
{
    match rows.get(number as usize) {
        Some(row) => row.as_slice(),
        None => &[],
    }
}
