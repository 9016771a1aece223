use bam_machine::end::End;

/// What a run of code came to, whose answers and raised term were written. Its ending, else, and the line of counts are
/// not.
#[derive(Clone, Copy, Debug, PartialEq, Eq)]
pub struct Ran {
    /// How it ended, which is no solution.
    pub end: End,
    /// Whether an answer was written whole.
    pub solved: bool,
    /// Whether bytes were written and the last one is no new line. It tells nothing after a write fault.
    pub line_begun: bool,
    /// How many instructions the code has.
    pub instructions: u64,
    /// How many steps were counted.
    pub steps: u64,
    /// How many choices were made.
    pub choices: u64,
}
