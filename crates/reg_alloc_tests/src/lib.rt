//! Tests of the allocation of registers on small texts, each with the exact text that comes out.
#![tactic(auto)]

#[cfg(test)]
mod accepted;
#[cfg(test)]
mod harness;
#[cfg(test)]
mod high_registers;
#[cfg(test)]
mod instructions;
#[cfg(test)]
mod intervals;
