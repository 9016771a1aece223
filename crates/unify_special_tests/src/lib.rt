//! Tests of the code of unifications: goals with the exact lines, and many goals whose code is accepted.
#![tactic(auto)]

#[cfg(test)]
mod generated;
#[cfg(test)]
mod given;
#[cfg(test)]
mod harness;
#[cfg(test)]
mod lines;
#[cfg(test)]
mod renumber;
#[cfg(test)]
mod scene;
#[cfg(test)]
mod stage;
