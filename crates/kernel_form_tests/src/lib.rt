//! Tests of the kernel form: programs from their text, and generated ones.
#![tactic(auto)]

#[cfg(test)]
mod forms;
#[cfg(test)]
mod generated;
#[cfg(test)]
mod goal_parts;
#[cfg(test)]
mod harness;
#[cfg(test)]
mod numbers;
#[cfg(test)]
mod recount;
#[cfg(test)]
mod well_formed;
