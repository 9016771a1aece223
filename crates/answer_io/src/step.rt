use crate::pending::Pending;
use crate::visit::Visit;

/// A node that is due below another, and what is written when it is done.
#[derive(Clone, Copy, Debug)]
pub struct Below {
    pub pending: Option<Pending>,
    pub visit: Visit,
}

/// What follows from the visit of a node.
#[derive(Clone, Copy, Debug)]
pub enum Step {
    /// The node is written.
    Leaf,
    /// The node is the variable of this cell, and not yet written.
    Variable(u64),
    /// The node is begun.
    Below(Below),
}
