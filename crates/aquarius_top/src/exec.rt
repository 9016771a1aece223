//! Runs of code that answers queries.
ghost use Rattle.std.specs.Prelude.{◌≡◌, ◌≢◌, ◌≤◌, OnErr};
ghost use Rattle.aq_base.specs.Faults.{HasRisen};

use crate::ending::{Counts, ending_line, ending_status, write_counts, write_ending};
use aq_base::limits::Limits;
use aq_base::put::put;
use aq_base::refusal::{Refusal, refusal_text};
use aq_base::sink::Sink;
use aq_base::source::Failed;
use aq_base::status::Status;
use aq_base::steps::Steps;
use bam_machine::end::End;
use code_exec::exec::exec_text;
use code_exec::exec_fault::ExecFault;
use code_exec::ran::Ran;
use code_exec::ready::Ready;
use std::alloc::Global;
use std::sync::ledger::Ledger;

/// Runs a query on a text of code: the answers as they come, how the run ended, and the counts. Else it writes the line of
/// the first refusal, of the text or of the query.
pub fn exec_code<K: Sink, L: Ledger>(
    alloc: Global,
    query: &str,
    text: &[u8],
    limits: &Limits,
    sink: &mut K,
    steps: &mut Steps<L>,
) -> Status
    requires heap { limits.now.heap ≤ 67108864 }
    requires env { limits.now.env ≤ 16777216 }
    requires choice { limits.now.choice ≤ 16777216 }
    requires trail { limits.now.trail ≤ 16777216 }
    requires work { limits.now.work ≤ 16777216 }
    ensures write { result ≡ Status.WriteFault → HasRisen (K.faults sink.old) (K.faults sink.new) }
    ensures memory { result ≡ Status.Memory → sink.new ≡ sink.old }
    ensures no_read { result ≢ Status.ReadFault }
{
    match exec_text(alloc, query, text, limits, sink, steps) {
        Ok(ran) if ran.end == End::WriteFault => Status::WriteFault,
        Ok(ran) => write_end(ran, sink),
        Err(ExecFault::Refused(cause)) => write_cause(alloc, &cause, sink),
        Err(ExecFault::Memory) => Status::Memory,
    }
}

/// Runs code with its query: its heading, the answers as they come, how the run ended, and the counts.
pub fn run_ready<K: Sink, L: Ledger>(
    alloc: Global,
    ready: &Ready,
    limits: &Limits,
    sink: &mut K,
    steps: &mut Steps<L>,
) -> Status
    requires heap { limits.now.heap ≤ 67108864 }
    requires env { limits.now.env ≤ 16777216 }
    requires choice { limits.now.choice ≤ 16777216 }
    requires trail { limits.now.trail ≤ 16777216 }
    requires work { limits.now.work ≤ 16777216 }
    ensures write { result ≡ Status.WriteFault → HasRisen (K.faults sink.old) (K.faults sink.new) }
    ensures memory { result ≡ Status.Memory → sink.new ≡ sink.old }
    ensures no_read { result ≢ Status.ReadFault }
{
    match ready.run(alloc, limits, sink, steps) {
        Ok(ran) if ran.end == End::WriteFault => Status::WriteFault,
        Ok(ran) => write_end(ran, sink),
        Err(_memory) => Status::Memory,
    }
}

/// Writes the line of a refusal.
fn write_cause<K: Sink>(alloc: Global, cause: &Refusal, sink: &mut K) -> Status
    ensures write { result ≡ Status.WriteFault → HasRisen (K.faults sink.old) (K.faults sink.new) }
    ensures memory { result ≡ Status.Memory → sink.new ≡ sink.old }
    ensures no_read { result ≢ Status.ReadFault }
{
    let Ok(line) = refusal_text(alloc, cause) else {
        return Status::Memory;
    };
    match put(sink, &line) {
        Ok(()) => Status::Refused,
        Err(_failed) => Status::WriteFault,
    }
}

/// Writes how a run ended, and answers its status.
fn write_end<K: Sink>(ran: Ran, sink: &mut K) -> Status
    requires fault { ran.end ≢ End.WriteFault }
    requires solution { ran.end ≢ End.Solution }
    ensures write { result ≡ Status.WriteFault → HasRisen (K.faults sink.old) (K.faults sink.new) }
    ensures memory { result ≢ Status.Memory }
    ensures no_read { result ≢ Status.ReadFault }
{
    match write_last_lines(ran, sink) {
        Ok(()) => ending_status(ran.end, ran.solved),
        Err(_failed) => Status::WriteFault,
    }
}

/// Writes the line of the ending, where the machine has not written it, and the line of counts.
fn write_last_lines<K: Sink>(ran: Ran, sink: &mut K) -> Result<(), Failed>
    ensures { OnErr result (HasRisen (K.faults sink.old) (K.faults sink.new)) }
{
    if ran.line_begun {
        put(sink, b"\n")?;
    }
    let counts = Counts {
        instructions: ran.instructions,
        steps: ran.steps,
        choices: ran.choices,
    };
    match ran.end {
        End::Raised => write_counts(sink, counts),
        end => write_ending(sink, ending_line(end), counts),
    }
}
