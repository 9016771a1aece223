//! Binding, unification and identity of terms on the machine's heap.
#![tactic(auto)]

pub mod bind;
pub mod bind_fault;
pub mod found;
pub mod pairs;
pub mod rest;
pub mod same;
pub mod unify;
pub mod visit;
