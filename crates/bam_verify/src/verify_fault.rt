use crate::reject::Reject;
use bam_code::code::Code;

/// Why a code is not verified. It hands the code back.
#[derive(Debug, Drop)]
pub enum VerifyFault {
    /// A line breaks a rule.
    Rejected(Code, Reject),
    /// Want of memory.
    Memory(Code),
}
