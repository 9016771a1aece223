//! Texts of code that are verified, linked and run on a query.
#![tactic(auto)]

pub mod exec;
pub mod exec_fault;
pub mod ran;
pub mod ready;
