//! Programs: the clauses of a text, tested and gathered by predicate, with the entries that queries may call.
#![tactic(auto)]

pub mod arguments;
pub mod body_goal;
pub mod clause_form;
pub mod clause_limits;
pub mod fault;
pub mod form_fault;
pub mod gathering;
pub mod goal;
pub mod kernel_outline;
pub mod outline_builder;
pub mod outline_clause;
pub mod outline_counts;
pub mod outline_walk;
pub mod predicate;
pub mod predicate_set;
pub mod predicates;
pub mod program;
pub mod query_entry;
pub mod source_clause;
pub mod source_clauses;
pub mod variable_places;
pub mod variable_set;
pub mod variable_uses;

pub use aq_term::entries::Entries;
pub use aq_term::entry::Entry;
pub use aq_term::mode::Mode;
pub use gathering::gather;
