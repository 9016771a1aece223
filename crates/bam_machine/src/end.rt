use aq_base::area_name::AreaName;

/// Where a run comes to. After any of these but a solution the run is over.
#[derive(Clone, Copy, Debug, PartialEq, Eq)]
pub enum End {
    /// A solution; there may be more.
    Solution,
    /// There is no further solution.
    Exhausted,
    /// A term was raised that nothing catches, and its line was written.
    Raised,
    /// The steps are at their limit.
    StepLimit,
    /// A growth needed more words than an area has.
    AreaLimit(AreaName),
    /// The sink failed.
    WriteFault,
    /// The code broke a rule: an instruction met a word of another kind than the one it names, an unset place, or one that
    /// is not there. Code that keeps the rules never comes here.
    Stray,
}
