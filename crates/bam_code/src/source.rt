use aq_term::atom::Atom;

/// Where an instruction takes a word from.
#[derive(Clone, Copy, Debug, PartialEq, Eq)]
pub enum Source {
    /// The register of this number.
    Register(u16),
    /// The slot of this number of the newest frame.
    Slot(u8),
    Int(i64),
    Atom(Atom),
    /// The pool entry of this number, from 0.
    Pool(u32),
}
