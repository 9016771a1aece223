//! A plain interpreter of programs, step by step as the language is defined: goals in a list, whole terms, and choices that are saved
//! states. It is slow and simple, and knows nothing of how programs are compiled, so that what compiled programs write can be
//! compared with what it writes. It is safe and always returns; what it answers is tested and not proved.
#![tactic(auto)]

pub mod agreement;
pub mod arguments;
pub mod arithmetic;
pub mod attempt;
pub mod ball;
pub mod builtins;
pub mod calls;
pub mod choice;
pub mod choices;
pub mod control;
pub mod copying;
pub mod ending;
pub mod errors;
pub mod evaluation;
pub mod functors;
pub mod goals;
pub mod halt;
pub mod interpreter;
pub mod kinds;
pub mod lists;
pub mod loading;
pub mod operation;
pub mod order;
pub mod outcome;
pub mod output;
pub mod pair;
pub mod pending;
pub mod reading;
pub mod spelling;
pub mod step;
pub mod terms;
#[cfg(test)]
mod tests;
pub mod transcript;
pub mod unification;
pub mod value;
