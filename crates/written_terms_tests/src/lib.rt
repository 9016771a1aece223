//! Tests that what is written with quotes reads back as the same term.
#![tactic(auto)]

#[cfg(test)]
mod numbers;
#[cfg(test)]
mod tests;
