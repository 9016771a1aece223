//! The cleaning of code: lines that do nothing, detours, and lines that no run comes to.
#![tactic(auto)]

pub mod clean;
mod flow;
mod from_the_end;
mod joined;
mod label_names;
mod line_labels;
mod needed;
mod new_numbers;
mod reached;
mod relabel;
mod threads;
