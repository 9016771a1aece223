//! Programs that are made from a seed, with a query each, for tests. One seed always makes the same program, and its text is accepted.
#![tactic(auto)]

pub mod body;
pub mod built_in;
pub mod clause;
pub mod draft;
pub mod entry_line;
pub mod expression;
pub mod goal;
pub mod numbers;
pub mod plan;
pub mod program;
pub mod query;
pub mod scope;
pub mod shape;
pub mod style;
pub mod term;
#[cfg(test)]
mod tests;
