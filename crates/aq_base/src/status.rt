ghost use Rattle.std.specs.Prelude.{◌≡◌};
ghost use Rattle.aq_base.specs.Status.{code_of};

/// How a command ended.
#[derive(Clone, Copy, Debug, PartialEq, Eq)]
pub enum Status {
    /// The run was exhausted after a solution, or another command was done.
    Solved,
    /// The run was exhausted without a solution.
    NoSolution,
    /// The run raised a term.
    Raised,
    /// The run stopped at its last step.
    StepLimit,
    /// The run stopped where an area was full.
    AreaLimit,
    /// A text or a query was refused.
    Refused,
    /// The words are no command.
    BadWords,
    /// Want of memory.
    Memory,
    /// A read failed.
    ReadFault,
    /// A write failed.
    WriteFault,
}

impl Status {
    /// The exit code: 0 to 9 in the order of the variants.
    pub fn code(&self) -> u8
        ensures { result ≡ code_of self.now }
    {
        match self {
            Status::Solved => 0,
            Status::NoSolution => 1,
            Status::Raised => 2,
            Status::StepLimit => 3,
            Status::AreaLimit => 4,
            Status::Refused => 5,
            Status::BadWords => 6,
            Status::Memory => 7,
            Status::ReadFault => 8,
            Status::WriteFault => 9,
        }
    }
}
