//! The least facts of a kernel program: what is so of the arguments at every call and at every success.
#![tactic(auto)]

pub mod analysis;
pub mod callers;
pub mod rise;
pub mod worklist;

pub use analysis::analyse;
