//! The machine that runs an image.
#![tactic(auto)]

mod arithmetic;
mod ball;
mod branches;
mod builtins;
mod catching;
mod control;
mod counts;
mod cuts;
mod did;
pub mod end;
mod engine;
mod execute;
mod halt;
mod holes;
pub mod machine;
mod moves;
mod output;
mod pace;
mod registers;
pub mod run_end;
mod running;
mod sequences;
mod starting;
pub mod step_end;
mod structures;
mod tags;
mod ticks;
mod unification;
mod visiting;
mod writing;
