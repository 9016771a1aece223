//! Memory of the machine's words behind one raw pointer.
#![tactic(auto)]

pub mod area;
// A contract names an area only where the types of its fields are public.
#[doc(hidden)]
pub mod block;
