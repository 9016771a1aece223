//! The machine's five areas of words: environments, choices, heap, trail and work.
#![tactic(auto)]

pub mod area;
pub mod caught;
pub mod full;
pub mod link;
pub mod restored;
pub mod store;
pub mod stray;
