ghost use Rattle.std.specs.Prelude.{◌≡◌, length};

use crate::key::Key;
use std::marker::Model;

/// One key or none for each clause of a predicate, in order. Contracts see the list of them.
#[derive(Debug, Drop)]
pub struct Keys {
    items: Vec<Option<Key>>,
}

impl Model for Keys {
    ghost use Rattle.std.specs.Prelude.{List, Option};
    ghost use Rattle.determinism.specs.declared.key.Key.{Key};

    ghost Value = { List (Option Key) };

    ghost view = { λ a. a.items.items };
}

impl Keys {
    /// The list of these keys, with no copy.
    pub fn from_vec(items: Vec<Option<Key>>) -> Keys
        ensures { result ≡ items.items }
    {
        Keys { items }
    }

    pub fn as_slice(&self) -> &[Option<Key>]
        ensures { result.now ≡ self.now }
    {
        self.items.as_slice()
    }

    pub fn len(&self) -> usize
        ensures { result ≡ length self.now }
    {
        self.items.len()
    }
}
