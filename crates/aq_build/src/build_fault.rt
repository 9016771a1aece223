ghost use Rattle.std.specs.Prelude.{◌≡◌};
ghost use Rattle.aq_build.specs.declared.build_fault.BuildFault.TheVariants as fault;

use aq_term::memory::Memory;
use bam_link::link_fault::LinkFault;
use bam_verify::verify_fault::VerifyFault;

/// Why a program is not built.
#[derive(Clone, Copy, Debug, PartialEq, Eq)]
pub enum BuildFault {
    /// The verifier rejects the code, or the code names a procedure that it has not. No program is known of which this is so.
    Unsupported,
    Memory,
}

impl From<Memory> for BuildFault {
    ghost from_gives = { λ _ e. e ≡ fault.Memory };

    fn from(_memory: Memory) -> BuildFault {
        BuildFault::Memory
    }
}

impl From<VerifyFault> for BuildFault {
    fn from(verify_fault: VerifyFault) -> BuildFault {
        match verify_fault {
            VerifyFault::Rejected(_code, _reject) => BuildFault::Unsupported,
            VerifyFault::Memory(_code) => BuildFault::Memory,
        }
    }
}

impl From<LinkFault> for BuildFault {
    fn from(link_fault: LinkFault) -> BuildFault {
        match link_fault {
            LinkFault::Undefined(_import) => BuildFault::Unsupported,
            LinkFault::Memory => BuildFault::Memory,
        }
    }
}
