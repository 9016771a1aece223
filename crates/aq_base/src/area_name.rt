/// One of the machine's five areas.
#[derive(Clone, Copy, Debug, PartialEq, Eq)]
pub enum AreaName {
    Heap,
    Env,
    Choice,
    Trail,
    Work,
}
