//! The verifier of code.
#![tactic(auto)]

mod broken;
mod entries;
mod procedures;
pub mod reject;
pub mod verify;
pub mod verify_fault;
