ghost use Rattle.std.specs.Prelude.{◌≡◌};

use aq_term::proc_name::ProcName;
use std::marker::Model;

/// The goals of a clause's body, from left to right. Contracts see the list of them.
#[derive(Debug, Drop)]
pub struct Goals {
    items: Vec<ProcName>,
}

impl Model for Goals {
    ghost use Rattle.std.specs.Prelude.{List};
    ghost use Rattle.aq_term.specs.declared.proc_name.ProcName.{ProcName};

    ghost Value = { List ProcName };

    ghost view = { λ a. a.items.items };
}

impl Goals {
    /// The list of these goals, with no copy.
    pub fn from_vec(items: Vec<ProcName>) -> Goals
        ensures { result ≡ items.items }
    {
        Goals { items }
    }

    pub fn as_slice(&self) -> &[ProcName]
        ensures { result.now ≡ self.now }
    {
        self.items.as_slice()
    }
}
