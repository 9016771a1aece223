//! Tests of the coalescing of moves on small texts, each with the exact text that comes out.
#![tactic(auto)]

#[cfg(test)]
mod between;
#[cfg(test)]
mod harness;
#[cfg(test)]
mod holes;
#[cfg(test)]
mod merged;
#[cfg(test)]
mod reloads;
