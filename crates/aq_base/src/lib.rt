//! What stands between the program and the world: sources, sinks, limits, statuses, refusals and the step counter.
#![tactic(auto)]

pub mod area_name;
pub mod count_sink;
pub mod limits;
pub mod memory_sink;
pub mod memory_source;
mod piece;
pub mod put;
pub mod read_all;
pub mod refusal;
pub mod sink;
pub mod source;
pub mod status;
pub mod std_sink;
pub mod std_source;
pub mod steps;
pub mod sure_source;
#[cfg(test)]
mod tests;
