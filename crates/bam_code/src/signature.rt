use crate::arg_types::ArgTypes;
use crate::types::Types;
use aq_term::proc_name::ProcName;

/// What callers know of a procedure: for each argument what it is told, and what it says at its return.
#[derive(Debug, Drop)]
pub struct Signature {
    pub name: ProcName,
    pub args: ArgTypes,
    pub results: Types,
}
