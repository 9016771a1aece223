/// The areas do not hold what a call names: no such cell, slot, frame, choice or catcher. Code that keeps the rules never
/// meets it.
#[derive(Clone, Copy, Debug, PartialEq, Eq)]
pub struct Stray;
