use crate::spelling::Quoting;
use crate::variables::Variables;
use aq_term::atoms::Atoms;

/// What a text depends on beside the term: the table of names, the variables that occur, and whether names are quoted.
#[derive(Debug, Drop)]
pub struct Setting<'a> {
    pub atoms: &'a Atoms,
    pub variables: &'a Variables,
    pub quoting: Quoting,
}
