//! Queries on their way in, and terms and answers on their way out: a query's text becomes words on the heap, and words become text.
#![tactic(auto)]

pub mod cell;
pub mod cells;
pub mod halt;
pub mod layout;
pub mod load;
pub mod load_fault;
pub mod load_query;
pub mod node_text;
pub mod output;
pub mod pending;
pub mod query;
pub mod query_fault;
pub mod rows;
pub mod step;
pub mod visit;
pub mod write_answer;
pub mod write_words;
pub mod writing;
pub mod wrote;
