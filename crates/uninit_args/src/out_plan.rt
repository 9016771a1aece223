ghost use Rattle.std.specs.Prelude.{◌≡◌, length};

use crate::out_args::OutArgs;
use std::marker::Model;

/// The results of a kernel program's predicates, in its order. Contracts see the list of them.
#[derive(Debug, Drop)]
pub struct OutPlan {
    items: Vec<OutArgs>,
}

impl Model for OutPlan {
    ghost use Rattle.std.specs.Prelude.{List, ℕ};

    ghost Value = { List (List ℕ) };

    ghost view = { λ a. a.items.items };
}

impl OutPlan {
    /// The list of these, with no copy.
    pub fn from_vec(items: Vec<OutArgs>) -> OutPlan
        ensures { result ≡ items.items }
    {
        OutPlan { items }
    }

    pub fn as_slice(&self) -> &[OutArgs]
        ensures { result.now ≡ self.now }
    {
        self.items.as_slice()
    }

    pub fn len(&self) -> usize
        ensures { result ≡ length self.now }
    {
        self.items.len()
    }
}
