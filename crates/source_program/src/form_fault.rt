ghost use Rattle.std.specs.Prelude.{◌≡◌};
ghost use Rattle.source_program.specs.declared.form_fault.FormFault.TheVariants as fault;
ghost use Rattle.source_program.specs.FormFault.{fault_of};

use aq_base::refusal::FormKind;
use aq_term::memory::Memory;
use dcg_rules::fault::DcgFault;
use std::alloc::{AllocError, AllocFailed};
use thiserror::Error;

/// Why a term is no clause of the language.
#[derive(Clone, Copy, Debug, PartialEq, Eq, Error)]
pub enum FormFault {
    #[error("form")]
    Form(FormKind),
    #[error("out of memory")]
    Memory,
}

impl From<Memory> for FormFault {
    ghost from_gives = { λ _ e. e ≡ fault.Memory };

    fn from(_error: Memory) -> FormFault {
        FormFault::Memory
    }
}

impl From<AllocError> for FormFault {
    ghost from_gives = { λ _ e. e ≡ fault.Memory };

    fn from(_error: AllocError) -> FormFault {
        FormFault::Memory
    }
}

impl<T: Drop> From<AllocFailed<T>> for FormFault {
    ghost from_gives = { λ _ e. e ≡ fault.Memory };

    fn from(_failed: AllocFailed<T>) -> FormFault {
        FormFault::Memory
    }
}

/// A grammar rule without a clause: its head or its body is at fault.
impl From<DcgFault> for FormFault {
    ghost from_gives = { λ f e. e ≡ fault_of f };

    fn from(fault: DcgFault) -> FormFault {
        match fault {
            DcgFault::Head => FormFault::Form(FormKind::Head),
            DcgFault::Body => FormFault::Form(FormKind::Body),
            DcgFault::Memory => FormFault::Memory,
        }
    }
}
