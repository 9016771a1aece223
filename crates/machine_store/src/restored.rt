use tag_word::word::Word;

/// What a fail takes from the newest choice beside the registers.
#[derive(Clone, Copy, Debug)]
pub struct Restored {
    /// The place where the run goes on.
    pub alternative: Word,
    /// The return place.
    pub back: Word,
}
