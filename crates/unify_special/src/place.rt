/// Where the value of a clause's variable stands.
#[derive(Clone, Copy, Debug, PartialEq, Eq, Default)]
pub enum Place {
    /// Nowhere: nothing was made for it, or nobody wants it any more.
    #[default]
    Nowhere,
    /// In the register of this number.
    Register(u16),
    /// In the slot of this number of the newest frame.
    Slot(u8),
    /// In a cell that a callee has filled. The slot of this number holds a reference to that cell.
    Boxed(u8),
}
