use crate::output::Output;
use aq_base::area_name::AreaName;
use machine_store::full::Full;
use machine_store::stray::Stray;
use machine_unify::bind_fault::BindFault;

/// Why the run does not simply go on behind an instruction.
#[derive(Clone, Copy, Debug, PartialEq, Eq)]
pub enum Halt {
    /// It gives the solution.
    Answers,
    /// It fails.
    Fails,
    /// It raises the ball that the engine holds.
    Raises,
    /// It goes on when this is written.
    Writes(Output),
    /// A visit was due and no step was left.
    OutOfSteps,
    /// A growth needed more words than this area's limit.
    Full(AreaName),
    /// The instruction met a word of another kind than the one it names, an unset place, or one that is not there. Code that
    /// keeps the rules never comes here.
    Stray,
}

impl From<Full> for Halt {
    fn from(full: Full) -> Halt {
        Halt::Full(full.area)
    }
}

impl From<Stray> for Halt {
    fn from(_stray: Stray) -> Halt {
        Halt::Stray
    }
}

impl From<BindFault> for Halt {
    fn from(fault: BindFault) -> Halt {
        match fault {
            BindFault::Full(area) => Halt::Full(area),
            BindFault::Stray => Halt::Stray,
        }
    }
}
