//! Code for rules without arguments: its scheme, and the law that it does what the rules say.
#![tactic(auto)]

mod bodies;
pub mod compile;
pub mod compile_fault;
mod defined;
mod emit;
mod goals;
mod group;
pub mod law;
mod number;
mod reach;
mod rule;
