use bam_code::place_type::PlaceType;

/// What a set register or slot holds. Two places with one identity hold one term or one hole.
#[derive(Clone, Copy, Debug)]
pub struct Held {
    pub holds: PlaceType,
    /// A number below that of all identities of the state.
    pub identity: u32,
}
