//! The coalescing of moves: a word is put at once into the register of the argument that it is moved to.
#![tactic(auto)]

mod behind;
pub mod coalesce;
mod flow;
mod merge;
mod moves;
mod registers;
mod reloads;
mod rename;
