ghost use Rattle.std.specs.Prelude.{◌≡◌};
ghost use Rattle.aq_base.specs.declared.refusal.FormKind.{FormKind};
ghost use Rattle.source_program.specs.declared.fault.GatherFault.TheVariants as fault;

use crate::form_fault::FormFault;
use aq_base::refusal::Refusal;
use aq_term::memory::Memory;
use std::alloc::{AllocError, AllocFailed};
use thiserror::Error;

/// Why clauses make no program.
#[derive(Clone, Copy, Debug, PartialEq, Eq, Error)]
pub enum GatherFault {
    #[error("refused")]
    Refused(Refusal),
    #[error("out of memory")]
    Memory,
}

impl GatherFault {
    /// The fault of the clause of this number, from 1.
    pub fn of_form(clause: u64, fault: FormFault) -> GatherFault
        ensures form { (kind : FormKind) → fault ≡ FormFault.Form kind → result ≡ GatherFault.Refused (Refusal.Form clause kind) }
        ensures memory { fault ≡ FormFault.Memory → result ≡ GatherFault.Memory }
    {
        match fault {
            FormFault::Form(kind) => GatherFault::Refused(Refusal::Form { clause, kind }),
            FormFault::Memory => GatherFault::Memory,
        }
    }
}

impl From<Memory> for GatherFault {
    ghost from_gives = { λ _ e. e ≡ fault.Memory };

    fn from(_error: Memory) -> GatherFault {
        GatherFault::Memory
    }
}

impl From<AllocError> for GatherFault {
    ghost from_gives = { λ _ e. e ≡ fault.Memory };

    fn from(_error: AllocError) -> GatherFault {
        GatherFault::Memory
    }
}

impl<T: Drop> From<AllocFailed<T>> for GatherFault {
    ghost from_gives = { λ _ e. e ≡ fault.Memory };

    fn from(_failed: AllocFailed<T>) -> GatherFault {
        GatherFault::Memory
    }
}
