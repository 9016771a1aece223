//! What each goal of a kernel clause does to the facts of its variables.
#![tactic(auto)]

pub mod argument_facts;
pub mod argument_rule;
pub mod builtin_rule;
pub mod call_facts;
pub mod call_rule;
pub mod compound_rule;
pub mod constant_rule;
pub mod deferred;
pub mod entry_fact;
pub mod env;
pub mod fact_list;
pub mod facts;
pub mod is_rule;
pub mod occurrences;
pub mod predicate_facts;
pub mod prepare;
pub mod progress;
pub mod result_fact;
pub mod seen;
pub mod taken_order;
pub mod transfer;
pub mod unify_rule;
pub mod variable_rule;

pub use type_lattice::fact;
