//! The allocation of registers: those from r64 on get the least numbers that do.
#![tactic(auto)]

pub mod allocate;
mod free_numbers;
mod intervals;
mod item_order;
mod line_registers;
mod named;
mod opened;
mod rename;
mod renaming;
mod scan;
