/// Where an instruction goes within its procedure.
#[derive(Clone, Copy, Debug, PartialEq, Eq)]
pub enum Target {
    /// To the label or alternative of this number, which stands later in the procedure.
    Label(u32),
    /// To a failing.
    Fails,
}
