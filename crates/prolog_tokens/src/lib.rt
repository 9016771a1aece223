//! The tokens of Prolog text: names, variables, integers, codes, punctuation and ends, each with its place and weight.
#![tactic(auto)]

pub mod clause;
pub mod digits;
pub mod fault;
pub mod layout;
pub mod piece;
pub mod placed;
pub mod scan;
pub mod shape;
#[cfg(test)]
mod tests;
pub mod token;
pub mod tokens;
