use bam_code::known::Known;

/// What an identity stands for.
#[derive(Clone, Copy, Debug)]
pub enum Identity {
    /// A term, or a structure that is not whole yet, of which so much is known.
    Term(Known),
    /// The unfilled hole of this procedure's argument of this number, from 0.
    Own(usize),
    /// An unfilled hole that a line of this procedure made.
    Made,
}
