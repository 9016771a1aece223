//! The text of an analysis: a line for each predicate that is called.
#![tactic(auto)]

pub mod lines;
pub mod output;
pub mod word;

pub use lines::facts_text;
