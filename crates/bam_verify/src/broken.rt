use aq_term::rule::Rule;

/// A line, or an entry, that breaks a rule, counted from 1.
#[derive(Clone, Copy, Debug)]
pub struct Broken {
    pub line: u64,
    pub rule: Rule,
}
