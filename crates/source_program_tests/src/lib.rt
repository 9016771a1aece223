//! Tests of programs. Each program is written in postfix order, so that no reader is needed.
#![tactic(auto)]

#[cfg(test)]
mod postfix;
#[cfg(test)]
mod tests;
