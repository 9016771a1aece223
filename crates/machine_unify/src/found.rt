use aq_base::area_name::AreaName;

/// What a unification or a comparison came to.
#[derive(Clone, Copy, Debug, PartialEq, Eq)]
pub enum Found {
    /// The terms are equal now, or identical.
    Yes,
    /// They cannot be made equal, or are not identical.
    No,
    /// No visit was left before a pair.
    Stopped,
    /// An area had no room for the words needed.
    Full(AreaName),
    /// A word leads nowhere. Code that keeps the rules never meets it.
    Stray,
}
