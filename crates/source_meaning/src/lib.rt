//! What a source program means: the steps of its depth-first run, and the texts that programs are written as.
//! Definitions, laws, and a program as data; nothing runs.
#![tactic(auto)]

pub mod laws;
pub mod rule_program;
