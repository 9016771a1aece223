ghost use Rattle.std.specs.Prelude.{◌≡◌, ◌≤◌, ℕ, OnOk, OnErr, length, take};
ghost use Rattle.std.specs.Io.KnownBytes.{Appends};
ghost use Rattle.aq_base.specs.Faults.{HasRisen};
ghost use Rattle.aquarius_top.specs.Answer.{area_line, exhausted_status};
ghost use Rattle.aquarius_top.specs.Ending.{line_for, status_for, last_lines};

use crate::pieces::put_all;
use aq_base::area_name::AreaName;
use aq_base::sink::Sink;
use aq_base::source::Failed;
use aq_base::status::Status;
use bam_machine::end::End;
use itoa::Buffer;

/// What the line of counts tells.
#[derive(Clone, Copy)]
pub struct Counts {
    /// How many instructions the code has.
    pub instructions: u64,
    /// How many steps were counted.
    pub steps: u64,
    /// How many choices were made.
    pub choices: u64,
}

/// The line of how a run ended, without its new line. A solution and a fault are no endings and have none, and the line of a
/// raised term is written by the machine.
pub fn ending_line(end: End) -> &'static [u8]
    ensures { result.now ≡ line_for end }
{
    match end {
        End::Exhausted => b"no",
        End::StepLimit => b"limit: steps",
        End::AreaLimit(area) => area_line(area),
        End::Stray => b"refused: unsupported",
        End::Solution | End::Raised | End::WriteFault => b"",
    }
}

fn area_line(area: AreaName) -> &'static [u8]
    ensures { result.now ≡ area_line area }
{
    match area {
        AreaName::Heap => b"limit: heap",
        AreaName::Env => b"limit: env",
        AreaName::Choice => b"limit: choice",
        AreaName::Trail => b"limit: trail",
        AreaName::Work => b"limit: work",
    }
}

/// The status of how a run ended, which had a solution or none.
pub fn ending_status(end: End, solved: bool) -> Status
    ensures { result ≡ status_for end solved }
{
    match end {
        End::Exhausted => exhausted_status(solved),
        End::Raised => Status::Raised,
        End::Stray => Status::Refused,
        End::StepLimit => Status::StepLimit,
        End::AreaLimit(_area) => Status::AreaLimit,
        End::Solution | End::WriteFault => Status::WriteFault,
    }
}

fn exhausted_status(solved: bool) -> Status
    ensures { result ≡ exhausted_status solved }
{
    if solved {
        Status::Solved
    } else {
        Status::NoSolution
    }
}

/// Writes the line of the ending and the line of counts.
pub fn write_ending<K: Sink>(sink: &mut K, line: &[u8], counts: Counts) -> Result<(), Failed>
    ensures whole { OnOk result (Appends (K.taken sink.old) (K.taken sink.new) (last_lines line.now counts)) }
    ensures front { OnErr result ((n : ℕ) × (n ≤ length (last_lines line.now counts))
        × Appends (K.taken sink.old) (K.taken sink.new) (take n (last_lines line.now counts))) }
    ensures failed { OnErr result (HasRisen (K.faults sink.old) (K.faults sink.new)) }
{
    let mut instructions = Buffer::new();
    let mut steps = Buffer::new();
    let mut choices = Buffer::new();
    put_all(
        sink,
        &[
            line,
            b"\n% code ",
            instructions.format(counts.instructions).as_bytes(),
            b" steps ",
            steps.format(counts.steps).as_bytes(),
            b" choices ",
            choices.format(counts.choices).as_bytes(),
            b"\n",
        ],
    )
}

/// Writes the line of counts.
pub fn write_counts<K: Sink>(sink: &mut K, counts: Counts) -> Result<(), Failed>
    ensures failed { OnErr result (HasRisen (K.faults sink.old) (K.faults sink.new)) }
{
    let mut instructions = Buffer::new();
    let mut steps = Buffer::new();
    let mut choices = Buffer::new();
    put_all(
        sink,
        &[
            b"% code ",
            instructions.format(counts.instructions).as_bytes(),
            b" steps ",
            steps.format(counts.steps).as_bytes(),
            b" choices ",
            choices.format(counts.choices).as_bytes(),
            b"\n",
        ],
    )
}
