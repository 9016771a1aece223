use aq_base::area_name::AreaName;

/// Why a cell was not bound.
#[derive(Clone, Copy, Debug, PartialEq, Eq)]
pub enum BindFault {
    /// The trail has no room for the cell's index. Nothing was changed.
    Full(AreaName),
    /// A reference leads nowhere. Code that keeps the rules never meets it.
    Stray,
}
