use bam_code::word_type::WordType;

/// A register that is looked into: a word of which a tag was tested or arguments are still to be read. At a label its type is this
/// one, whatever variable stands in it.
#[derive(Clone, Copy, Debug, PartialEq, Eq)]
pub struct Opened {
    pub register: u16,
    pub holds: WordType,
    /// The argument of the head whose term it is, where no variable stands in the register.
    pub mark: Option<u8>,
}
