use tag_word::word::Word;

/// What comes back from a catcher beside the registers.
#[derive(Clone, Copy, Debug)]
pub struct Caught {
    /// The place where the run goes on.
    pub label: Word,
    /// The return place.
    pub back: Word,
    /// How many registers were kept.
    pub kept: u64,
}
