//! Tests of the code of rules and of its runs.
#![tactic(auto)]

#[cfg(test)]
mod listing;
#[cfg(test)]
mod rules;
#[cfg(test)]
mod run;
#[cfg(test)]
mod tests;
