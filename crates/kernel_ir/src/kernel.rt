use crate::kernel_predicates::KernelPredicates;

/// A program in kernel form: clauses whose heads are variables and whose bodies are calls, built-ins, unifications and cuts. Control
/// constructs are predicates of their own.
#[derive(Debug, Drop)]
pub struct Kernel {
    /// The predicates of the source program in the order of their first clauses, each followed by its auxiliary predicates by
    /// number.
    pub predicates: KernelPredicates,
}
