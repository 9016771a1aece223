//! What the machine's built-ins do with terms: the evaluation of arithmetic, the built-ins that look into terms and make
//! them, the order of terms, the tests of kinds, and the errors that they raise.
//!
//! The calls named after a built-in take its arguments in its own order and give an `Outcome`. They go through terms depth first and
//! leftmost first, over the work area alone, which they leave as it was. A visit is counted before it is done; a term is made with
//! the visit that it belongs to. Terms may be cyclic: a call then ends where its visits are used up.
#![tactic(auto)]

pub mod arg;
pub mod arithmetic;
pub mod compare;
mod compound;
pub mod copy_term;
pub mod error_term;
pub mod evaluate;
pub mod evaluation_fault;
mod form;
pub mod functor;
mod halt;
pub mod outcome;
pub mod put_char;
mod reads;
mod shape;
pub mod type_test;
pub mod univ;
mod visit;
