use aq_base::area_name::AreaName;

/// How a write ended.
#[derive(Clone, Copy, Debug, PartialEq, Eq)]
pub enum Wrote {
    /// All is written.
    Done,
    /// No visit was left where one was due. What is written is a prefix of the text, as after the next two.
    Stopped,
    /// This area has no room for a word that is needed.
    Full(AreaName),
    /// The words stand for no term.
    Stray,
    /// The sink had a fault.
    Failed,
}
