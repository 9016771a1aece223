/// Where a word stands.
#[derive(Clone, Copy, Debug, PartialEq, Eq)]
pub enum Place {
    /// The register of this number.
    Register(u16),
    /// The slot of this number of the newest frame.
    Slot(u8),
}
