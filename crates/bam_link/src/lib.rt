//! Images: code whose names and labels are places.
#![tactic(auto)]

pub mod chains;
mod declared;
pub mod image;
pub mod instruction;
mod label_places;
mod line_size;
pub mod link;
pub mod link_fault;
mod link_line;
pub mod operand;
mod pool_words;
mod proc_places;
mod sequences;
pub mod switch_places;
mod tables;
