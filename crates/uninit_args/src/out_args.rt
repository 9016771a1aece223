ghost use Rattle.std.specs.Prelude.{◌≡◌, length};

use std::marker::Model;

/// The numbers of the arguments of a predicate that are results, ascending. Contracts see the list of them.
#[derive(Debug, Drop)]
pub struct OutArgs {
    items: Vec<u8>,
}

impl Model for OutArgs {
    ghost use Rattle.std.specs.Prelude.{List, ℕ};

    ghost Value = { List ℕ };

    ghost view = { λ a. a.items.items };
}

impl OutArgs {
    /// The list of these numbers, with no copy.
    pub fn from_vec(items: Vec<u8>) -> OutArgs
        ensures { result ≡ items.items }
    {
        OutArgs { items }
    }

    pub fn as_slice(&self) -> &[u8]
        ensures { result.now ≡ self.now }
    {
        self.items.as_slice()
    }

    pub fn len(&self) -> usize
        ensures { result ≡ length self.now }
    {
        self.items.len()
    }
}
