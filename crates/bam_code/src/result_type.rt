/// What a procedure says of an argument when it returns: for a result of the procedure one of the first six, for a
/// number of choices `Bar`, and else `Ground`, `Nonvar` or `Any`.
#[derive(Clone, Copy, Debug, PartialEq, Eq)]
pub enum ResultType {
    Full,
    GroundDirect,
    Ground,
    Direct,
    Nonvar,
    Any,
    Bar,
}
