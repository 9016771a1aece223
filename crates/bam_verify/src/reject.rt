use aq_term::rule::Rule;

/// The first line that breaks a rule, and the first rule that it breaks. Procedures and lines are numbered from 1. An entry counts as
/// a line of procedure 0.
#[derive(Clone, Copy, Debug, PartialEq, Eq)]
pub struct Reject {
    pub proc: u64,
    pub line: u64,
    pub rule: Rule,
}
