//! The code of unifications.
#![tactic(auto)]

pub mod base;
pub mod draft;
mod equal_constant;
pub mod fact_types;
mod fill;
pub mod ground_pool;
mod introduce;
pub mod label;
mod learner;
pub mod make;
mod open_label;
pub mod opened;
pub mod operand;
pub mod pattern;
pub mod picture;
pub mod place;
pub mod place_list;
mod read;
mod read_part;
mod right_side;
pub mod role;
pub mod unify_code;
mod unify_compound;
mod unify_constant;
mod unify_variable;
pub mod wanted;
