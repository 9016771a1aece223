//! The words of the machine: a tag and a value in 128 bits.
#![tactic(auto)]

pub mod tag;
pub mod word;
