//! Reads the tokens of a clause or a query as a term.
#![tactic(auto)]

pub mod brackets;
pub mod built;
pub mod enclosed;
pub mod fault;
pub mod frame;
pub mod limits;
pub mod machine;
pub mod operand;
pub mod read;
pub mod row;
pub mod stack;
pub mod symbol;
#[cfg(test)]
mod tests;
pub mod variables;
pub mod word;
pub mod words;
