ghost use Rattle.std.specs.Prelude.{◌≡◌, ◌≢◌, ◌≤◌, false};
ghost use Rattle.aq_base.specs.Faults.{HasRisen};
ghost use Rattle.source_meaning.specs.Program.{Program};
ghost use Rattle.aquarius_top.specs.Ran.{IsImageOf, Runs};
ghost use Rattle.aquarius_top.specs.Reply.{WritesWhole, WritesFront};

use crate::ending::{Counts, ending_line, ending_status, write_ending};
use aq_base::limits::Limits;
use aq_base::sink::Sink;
use aq_base::status::Status;
use aq_base::steps::Steps;
use aq_term::atoms::Atoms;
use bam_link::image::Image;
use bam_machine::end::End;
use bam_machine::machine::Machine;
use std::alloc::Global;
use std::sync::ledger::Ledger;

/// Runs the image of a program from its first entry, and writes each answer as it comes and then how the run ended.
pub fn run_image<K: Sink, L: Ledger>(
    alloc: Global,
    image: &Image,
    limits: &Limits,
    sink: &mut K,
    steps: &mut Steps<L>,
) -> Status
    requires image { (program : Program) × IsImageOf program image.now }
    requires heap { limits.now.heap ≤ 67108864 }
    requires env { limits.now.env ≤ 16777216 }
    requires choice { limits.now.choice ≤ 16777216 }
    requires trail { limits.now.trail ≤ 16777216 }
    requires work { limits.now.work ≤ 16777216 }
    ensures done { WritesWhole (Runs image.now limits.now) result (K.taken sink.old) (K.taken sink.new) }
    ensures write { result ≡ Status.WriteFault → HasRisen (K.faults sink.old) (K.faults sink.new)
        × WritesFront (Runs image.now limits.now) (K.taken sink.old) (K.taken sink.new) }
    ensures memory { result ≡ Status.Memory → sink.new ≡ sink.old }
    ensures no_read { result ≢ Status.ReadFault }
{
    match Atoms::new(alloc) {
        Ok(atoms) => run_with(alloc, image, &atoms, limits, sink, steps),
        Err(_memory) => Status::Memory,
    }
}

/// Runs the image with a table of names, of which a program of names writes none.
fn run_with<K: Sink, L: Ledger>(
    alloc: Global,
    image: &Image,
    atoms: &Atoms,
    limits: &Limits,
    sink: &mut K,
    steps: &mut Steps<L>,
) -> Status
    requires image { (program : Program) × IsImageOf program image.now }
    requires heap { limits.now.heap ≤ 67108864 }
    requires env { limits.now.env ≤ 16777216 }
    requires choice { limits.now.choice ≤ 16777216 }
    requires trail { limits.now.trail ≤ 16777216 }
    requires work { limits.now.work ≤ 16777216 }
    ensures done { WritesWhole (Runs image.now limits.now) result (K.taken sink.old) (K.taken sink.new) }
    ensures write { result ≡ Status.WriteFault → HasRisen (K.faults sink.old) (K.faults sink.new)
        × WritesFront (Runs image.now limits.now) (K.taken sink.old) (K.taken sink.new) }
    ensures memory { result ≡ Status.Memory → sink.new ≡ sink.old }
    ensures no_read { result ≢ Status.ReadFault }
{
    let Ok(mut machine) = Machine::open(alloc, image, atoms, limits) else {
        return Status::Memory;
    };
    machine.start_entry(0);
    let ended = machine.run_to_end(sink, steps);
    let end = match ended.end {
        End::WriteFault => return Status::WriteFault,
        end => end,
    };
    let counts = Counts {
        instructions: image.instructions(),
        steps: machine.steps(),
        choices: machine.choices(),
    };
    match write_ending(sink, ending_line(end), counts) {
        Ok(()) => ending_status(end, ended.solved),
        Err(_failed) => Status::WriteFault,
    }
}
