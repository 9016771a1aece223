//! Tests of the cleaning on small texts, each with the exact text that comes out.
#![tactic(auto)]

#[cfg(test)]
mod harness;
#[cfg(test)]
mod numbers;
#[cfg(test)]
mod rules;
#[cfg(test)]
mod together;
