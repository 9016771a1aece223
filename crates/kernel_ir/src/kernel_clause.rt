use crate::kernel_goals::KernelGoals;

/// A clause of a kernel predicate, whose head arguments are the variables below the predicate's width, in order.
#[derive(Debug, Drop)]
pub struct KernelClause {
    pub goals: KernelGoals,
    /// Each variable of the clause is below this number.
    pub variables: u32,
    /// The number of the source clause in the text, from 1.
    pub source: u64,
}
