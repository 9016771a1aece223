//! Codes in parts: how they are read from one text, and how they are joined.
#![tactic(auto)]

pub mod codes;
mod copies;
pub mod join;
pub mod join_fault;
mod join_names;
pub mod parts;
pub mod parts_fault;
mod pool_union;
mod renumbered;
pub mod verified_parts;
