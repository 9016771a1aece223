//! Facts of terms and words: their order, and what is known besides.
#![tactic(auto)]

pub mod fact;
pub mod laws;
