use aq_base::area_name::AreaName;

/// An area that has no room for the words needed.
#[derive(Clone, Copy, Debug, PartialEq, Eq)]
pub struct Full {
    pub area: AreaName,
}
