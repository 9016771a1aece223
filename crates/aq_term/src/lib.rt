//! Texts and names, atoms and terms, and the one error of calls that only memory can stop.
#![tactic(auto)]

pub mod args;
pub mod args0;
pub mod atom;
pub mod atoms;
pub mod builtin;
pub mod entries;
pub mod entry;
pub mod functor;
pub mod memory;
pub mod mode;
pub mod modes;
pub mod names;
pub mod operators;
pub mod pool;
pub mod proc_name;
pub mod read_term;
pub mod read_terms;
pub mod reserved;
pub mod rule;
pub mod term;
#[cfg(test)]
mod tests;
pub mod text;
pub mod texts;
