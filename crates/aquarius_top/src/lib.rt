//! The top call: it reads the words of a command and the source, and writes what they ask for to the sink.
#![tactic(auto)]

mod analyse;
pub mod code_texts;
pub mod command;
mod compiled;
mod ending;
mod exec;
mod front;
mod given_options;
pub mod laws;
mod limit_name;
mod number;
#[cfg(test)]
mod one_byte_tests;
mod pieces;
mod plan;
mod rules;
mod run;
#[cfg(test)]
mod tests;
pub mod top;
pub mod work;
