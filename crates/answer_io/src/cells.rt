ghost use Rattle.std.specs.Prelude.{◌≡◌, length};

use std::marker::Model;

/// For each variable of a query the place of its own cell, counted in words from the query's first word. Contracts see the list of
/// places.
#[derive(Debug, Drop)]
pub struct Cells {
    items: Vec<u64>,
}

impl Model for Cells {
    ghost use Rattle.std.specs.Prelude.{List, ℕ};

    ghost Value = { List ℕ };

    ghost view = { λ c. c.items.items };
}

impl Cells {
    /// The list of these places, with no copy.
    pub fn from_vec(items: Vec<u64>) -> Cells
        ensures { result ≡ items.items }
    {
        Cells { items }
    }

    pub fn as_slice(&self) -> &[u64]
        ensures { result.now ≡ self.now }
    {
        self.items.as_slice()
    }

    pub fn len(&self) -> usize
        ensures { result ≡ length self.now }
    {
        self.items.len()
    }
}
