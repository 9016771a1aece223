//! Tests of the code of small programs, from their text on.
#![tactic(auto)]

#[cfg(test)]
mod accepted;
#[cfg(test)]
mod harness;
#[cfg(test)]
mod texts;
