ghost use Rattle.std.specs.Prelude.{◌≡◌, ◌≢◌, ◌≤◌, ◌+◌, IfOk, OnErr};
ghost use Rattle.aq_base.specs.Faults.{HasRisen};
ghost use Rattle.bam_machine.specs.declared.end.End.TheVariants as end;

use crate::exec_fault::ExecFault;
use crate::ran::Ran;
use crate::ready::Ready;
use answer_io::load_query::load_query;
use answer_io::query::Query;
use aq_base::limits::Limits;
use aq_base::sink::Sink;
use aq_base::steps::Steps;
use aq_term::atoms::Atoms;
use aq_term::memory::Memory;
use bam_link::image::Image;
use bam_link::link::link;
use bam_text::read::read;
use bam_verify::verify::verify;
use std::alloc::Global;
use std::sync::ledger::Ledger;

/// One more than the most names that a table may have.
const NAMES: u64 = 4_294_967_295;

/// Runs a query on a text of code. The text is refused for its first line outside the grammar, for the first line that breaks
/// a rule, for its first import, and then the query is. Nothing is written before the last refusal. Answers are written as
/// they come, and so is the line of a raised term; how the run ended is the caller's to write.
pub fn exec_text<K: Sink, L: Ledger>(
    alloc: Global,
    query: &str,
    text: &[u8],
    limits: &Limits,
    sink: &mut K,
    steps: &mut Steps<L>,
) -> Result<Ran, ExecFault>
    requires heap { limits.now.heap ≤ 67108864 }
    requires env { limits.now.env ≤ 16777216 }
    requires choice { limits.now.choice ≤ 16777216 }
    requires trail { limits.now.trail ≤ 16777216 }
    requires work { limits.now.work ≤ 16777216 }
    ensures refused { OnErr result (sink.new ≡ sink.old) }
    ensures ended { IfOk result (λ ran. ran.end ≢ end.Solution) }
    ensures fault { IfOk result (λ ran. ran.end ≡ end.WriteFault → HasRisen (K.faults sink.old) (K.faults sink.new)) }
    ensures never_falls { K.faults sink.old ≤ K.faults sink.new }
{
    let mut atoms = Atoms::new(alloc)?;
    let image = image_of(alloc, text, &mut atoms)?;
    let ready = Ready::new(alloc, image, atoms, query, Vec::new(alloc))?;
    let ran = ready.run(alloc, limits, sink, steps)?;
    Ok(ran)
}

/// The linked code of a text.
pub fn image_of(alloc: Global, text: &[u8], atoms: &mut Atoms) -> Result<Image, ExecFault> {
    let code = read(alloc, text, atoms)?;
    let verified = verify(alloc, code)?;
    Ok(link(alloc, verified.code())?)
}

/// The query of a text, for the entries of an image.
pub fn query_of(
    alloc: Global,
    image: &Image,
    atoms: &mut Atoms,
    query: &str,
) -> Result<Query, ExecFault> {
    let names = (atoms.len() as u64).saturating_add(query.len() as u64);
    if names >= NAMES {
        return Err(ExecFault::Memory);
    }
    Ok(load_query(alloc, image.entries(), atoms, query)?)
}
