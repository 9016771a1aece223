//! Types of words and places, the state of the verifier, and the rules of code.
#![tactic(auto)]

mod after;
mod argument;
mod arguments;
mod call_rule;
pub mod callees;
mod catch_rule;
mod caught;
mod choice_rule;
mod declared;
pub mod enter;
pub mod entry_rule;
mod fit;
mod flow;
mod held;
mod hole_rule;
mod identities;
mod identity;
pub mod knowledge;
pub mod labels;
mod open_rule;
mod opening;
mod operand;
pub mod place_types;
mod places;
mod places_rules;
mod result_rule;
pub mod rules;
pub mod scope;
pub mod state;
mod state_rule;
pub mod verified;
pub mod word_types;
