//! What BAM code means: the machine as a definition, its needs of words, its limits, and how code is
//! linked. Definitions and their laws alone; nothing runs.
#![tactic(auto)]

pub mod laws;
