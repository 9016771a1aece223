//! The exact reader of the texts that programs of rules without arguments are written as.
#![tactic(auto)]

mod body;
mod clause;
mod entry;
mod layout;
pub mod name;
mod prefix;
pub mod read;
#[cfg(test)]
mod tests;
