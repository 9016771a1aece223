ghost use Rattle.std.specs.Prelude.{◌≡◌, ◌≢◌, ◌≤◌, IfOk, OnErr, Some};
ghost use Rattle.aq_base.specs.Faults.{HasRisen};
ghost use Rattle.bam_machine.specs.declared.end.End.TheVariants as end;

use crate::exec::query_of;
use crate::exec_fault::ExecFault;
use crate::ran::Ran;
use answer_io::query::Query;
use aq_base::limits::Limits;
use aq_base::put::put;
use aq_base::sink::Sink;
use aq_base::steps::Steps;
use aq_term::atoms::Atoms;
use aq_term::memory::Memory;
use bam_link::image::Image;
use bam_machine::end::End;
use bam_machine::machine::Machine;
use bam_machine::run_end::RunEnd;
use std::alloc::Global;
use std::sync::ledger::Ledger;

/// Linked code with a query of one of its entries.
#[derive(Drop)]
pub struct Ready {
    image: Image,
    /// The table of the names in the code and the query.
    atoms: Atoms,
    query: Query,
    /// What is written before the run.
    heading: Vec<u8>,
}

impl Ready {
    /// The code with the query of this text. The heading is written before the run, and is empty or ends with a new line. The query
    /// is refused where an entry does not take it.
    pub fn new(
        alloc: Global,
        image: Image,
        atoms: Atoms,
        query: &str,
        heading: Vec<u8>,
    ) -> Result<Ready, ExecFault> {
        let mut atoms = atoms;
        let query = query_of(alloc, &image, &mut atoms, query)?;
        Ok(Ready {
            image,
            atoms,
            query,
            heading,
        })
    }

    /// Writes the heading and runs the query. Answers are written as they come, and so is the line of a raised term; how the run
    /// ended is the caller's to write. After want of memory nothing was written.
    pub fn run<K: Sink, L: Ledger>(
        &self,
        alloc: Global,
        limits: &Limits,
        sink: &mut K,
        steps: &mut Steps<L>,
    ) -> Result<Ran, Memory>
        requires heap { limits.now.heap ≤ 67108864 }
        requires env { limits.now.env ≤ 16777216 }
        requires choice { limits.now.choice ≤ 16777216 }
        requires trail { limits.now.trail ≤ 16777216 }
        requires work { limits.now.work ≤ 16777216 }
        ensures memory { OnErr result (sink.new ≡ sink.old) }
        ensures ended { IfOk result (λ ran. ran.end ≢ end.Solution) }
        ensures fault { IfOk result (λ ran. ran.end ≡ end.WriteFault → HasRisen (K.faults sink.old) (K.faults sink.new)) }
        ensures never_falls { K.faults sink.old ≤ K.faults sink.new }
    {
        let mut machine = Machine::open(alloc, &self.image, &self.atoms, limits)?;
        machine.start(&self.query);
        let ended = write_and_run(&mut machine, &self.heading, sink, steps);
        Ok(Ran {
            end: ended.end,
            solved: ended.solved,
            line_begun: machine.line_begun(),
            instructions: self.image.instructions(),
            steps: machine.steps(),
            choices: machine.choices(),
        })
    }
}

/// Writes the heading and then runs the machine to its end.
fn write_and_run<K: Sink, L: Ledger>(
    machine: &mut Machine<'_>,
    heading: &[u8],
    sink: &mut K,
    steps: &mut Steps<L>,
) -> RunEnd
    requires { machine.old.over_by ≢ Some end.WriteFault }
    ensures ended { result.end ≢ end.Solution }
    ensures fault { result.end ≡ end.WriteFault → HasRisen (K.faults sink.old) (K.faults sink.new) }
    ensures never_falls { K.faults sink.old ≤ K.faults sink.new }
{
    match put(sink, heading) {
        Ok(()) => machine.run_to_end(sink, steps),
        Err(_failed) => RunEnd {
            end: End::WriteFault,
            solved: false,
        },
    }
}
