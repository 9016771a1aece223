/// Where a switch goes with a reference.
#[derive(Clone, Copy, Debug, PartialEq, Eq)]
pub enum SwitchTarget {
    /// To the label of this number, which stands later in the procedure.
    Label(u32),
    /// To a failing.
    Fails,
    /// Nowhere, since the word is never a reference.
    Never,
}
