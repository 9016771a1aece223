//! BAM code as data: entries, imports, a pool of ground terms, and procedures of lines.
#![tactic(auto)]

pub mod arg_type;
pub mod arg_types;
pub mod arith_op;
pub mod code;
pub mod comparison;
pub mod constant;
pub mod hole_type;
pub mod item;
pub mod items;
pub mod known;
pub mod line;
pub mod lines;
pub mod place;
pub mod place_type;
pub mod procedure;
pub mod procs;
pub mod result_type;
pub mod sameness;
pub mod signature;
pub mod signatures;
pub mod source;
pub mod switch_target;
pub mod target;
pub mod types;
pub mod word_type;
