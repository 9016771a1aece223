use crate::kernel_clauses::KernelClauses;
use aq_term::proc_name::ProcName;

/// A predicate of a kernel program: one of the source program, with part 0, or an auxiliary one that a control construct became.
#[derive(Debug, Drop)]
pub struct KernelPredicate {
    pub name: ProcName,
    /// Whether its last argument is a barrier: the number of choices to which a cut of the source clause goes back.
    pub barrier: bool,
    /// At least one.
    pub clauses: KernelClauses,
}
