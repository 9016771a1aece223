//! BAM code as text: how code is printed, and how text is read.
#![tactic(auto)]

pub mod fault;
mod fields;
mod ground;
mod instruction;
mod items_text;
mod names;
mod operands;
mod output;
pub mod print;
mod print_line;
mod print_operands;
pub mod read;
mod scope;
mod signature_text;
mod text_lines;
mod version;
mod words;
