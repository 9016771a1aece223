ghost use Rattle.std.specs.Prelude.{◌≡◌, length};

use crate::predicate_plan::Plan;
use std::marker::Model;

/// The plans of a kernel program's predicates, in its order. Contracts see the list of them.
#[derive(Debug, Drop)]
pub struct Plans {
    items: Vec<Plan>,
}

impl Model for Plans {
    ghost use Rattle.std.specs.Prelude.{List};
    ghost use Rattle.determinism.specs.declared.predicate_plan.Plan.{Plan};

    ghost Value = { List Plan };

    ghost view = { λ a. a.items.items };
}

impl Plans {
    /// The list of these plans, with no copy.
    pub fn from_vec(items: Vec<Plan>) -> Plans
        ensures { result ≡ items.items }
    {
        Plans { items }
    }

    pub fn as_slice(&self) -> &[Plan]
        ensures { result.now ≡ self.now }
    {
        self.items.as_slice()
    }

    pub fn len(&self) -> usize
        ensures { result ≡ length self.now }
    {
        self.items.len()
    }
}
