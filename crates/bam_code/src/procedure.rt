use crate::lines::Lines;
use crate::signature::Signature;

/// A procedure: its signature, and its lines up to `end`.
#[derive(Debug, Drop)]
pub struct Proc {
    pub signature: Signature,
    pub lines: Lines,
}
