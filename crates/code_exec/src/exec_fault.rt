ghost use Rattle.std.specs.Prelude.{◌≡◌};
ghost use Rattle.code_exec.specs.declared.exec_fault.ExecFault.TheVariants as fault;

use answer_io::query_fault::QueryFault;
use aq_base::refusal::Refusal;
use aq_term::memory::Memory;
use bam_link::link_fault::LinkFault;
use bam_text::fault::TextFault;
use bam_verify::verify_fault::VerifyFault;

/// Why a text of code is not run. Nothing was written.
#[derive(Clone, Copy, Debug, PartialEq, Eq)]
pub enum ExecFault {
    /// The text or the query is refused for this cause, the first that holds.
    Refused(Refusal),
    Memory,
}

impl From<Memory> for ExecFault {
    ghost from_gives = { λ _ e. e ≡ fault.Memory };

    fn from(_memory: Memory) -> ExecFault {
        ExecFault::Memory
    }
}

impl From<TextFault> for ExecFault {
    fn from(text_fault: TextFault) -> ExecFault {
        match text_fault {
            TextFault::Line(line) => ExecFault::Refused(Refusal::Text { line }),
            TextFault::Memory => ExecFault::Memory,
        }
    }
}

impl From<VerifyFault> for ExecFault {
    fn from(verify_fault: VerifyFault) -> ExecFault {
        match verify_fault {
            VerifyFault::Rejected(_code, reject) => ExecFault::Refused(Refusal::Reject {
                proc: reject.proc,
                line: reject.line,
                rule: reject.rule,
            }),
            VerifyFault::Memory(_code) => ExecFault::Memory,
        }
    }
}

impl From<LinkFault> for ExecFault {
    fn from(link_fault: LinkFault) -> ExecFault {
        match link_fault {
            LinkFault::Undefined(import) => ExecFault::Refused(Refusal::Undefined { import }),
            LinkFault::Memory => ExecFault::Memory,
        }
    }
}

impl From<QueryFault> for ExecFault {
    fn from(query_fault: QueryFault) -> ExecFault {
        match query_fault {
            QueryFault::QuerySyntax => ExecFault::Refused(Refusal::QuerySyntax),
            QueryFault::NotEntry => ExecFault::Refused(Refusal::NotEntry),
            QueryFault::QueryMode(argument) => ExecFault::Refused(Refusal::QueryMode { argument }),
            QueryFault::Memory => ExecFault::Memory,
        }
    }
}
