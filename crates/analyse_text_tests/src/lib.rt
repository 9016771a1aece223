//! Tests of the text of an analysis, from the text of a program on.
#![tactic(auto)]

#[cfg(test)]
mod programs;
