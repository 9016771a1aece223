//! Grammar rules: `Head --> Body` as the clause that takes what the body derives off the front of a list.
#![tactic(auto)]

pub mod body;
pub mod build;
pub mod fault;
pub mod operand_list;
pub mod rule_clause;

pub use rule_clause::translate;
