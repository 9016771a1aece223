//! Kernel programs as data, and their printed form.
#![tactic(auto)]

pub mod kernel;
pub mod kernel_clause;
pub mod kernel_clauses;
pub mod kernel_goal;
pub mod kernel_goals;
pub mod kernel_predicate;
pub mod kernel_predicates;
pub mod kernel_text;
