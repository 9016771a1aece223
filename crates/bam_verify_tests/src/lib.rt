//! Tests of the verifier on small texts, each with the exact answer.
#![tactic(auto)]

#[cfg(test)]
mod calls;
#[cfg(test)]
mod catchers;
#[cfg(test)]
mod harness;
#[cfg(test)]
mod holes;
#[cfg(test)]
mod instructions;
#[cfg(test)]
mod joined;
#[cfg(test)]
mod labels;
#[cfg(test)]
mod order;
#[cfg(test)]
mod worked;
