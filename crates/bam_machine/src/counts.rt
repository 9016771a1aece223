/// What is counted while instructions are done.
#[derive(Clone, Copy, Debug)]
pub struct Counts {
    /// How many steps are left.
    pub left: u64,
    /// How many choices were made.
    pub tried: u64,
}
