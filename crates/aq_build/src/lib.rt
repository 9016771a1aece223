//! Programs to code that is verified and linked.
#![tactic(auto)]

pub mod build;
pub mod build_fault;
pub mod built;
mod emit;
