use crate::procs::Procs;
use crate::signatures::Signatures;
use aq_term::entries::Entries;
use aq_term::pool::Pool;

/// A whole code. The `clause` of each of its entries is 0.
#[derive(Debug, Drop)]
pub struct Code {
    /// What queries may call.
    pub entries: Entries,
    /// Procedures that are called and stand in other code.
    pub imports: Signatures,
    /// Ground compounds, named by their places from 0.
    pub pool: Pool,
    pub procs: Procs,
}
