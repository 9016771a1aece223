//! What compiled programs write, compared with what the plain interpreter does.
#![tactic(auto)]

#[cfg(test)]
mod examples;
#[cfg(test)]
mod harness;
#[cfg(test)]
mod made;
