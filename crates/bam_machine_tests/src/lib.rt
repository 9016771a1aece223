//! Tests of the machine on texts of code, each with its exact output, steps, choices and need of words.
#![tactic(auto)]

#[cfg(test)]
mod builtins;
#[cfg(test)]
mod catchers;
#[cfg(test)]
mod chains;
#[cfg(test)]
mod endings;
#[cfg(test)]
mod fronts;
#[cfg(test)]
mod harness;
#[cfg(test)]
mod holes;
#[cfg(test)]
mod instructions;
#[cfg(test)]
mod worked;
