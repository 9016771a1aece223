//! Programs that are compiled.
ghost use Rattle.std.specs.Prelude.{◌≤◌, IfErr, IfOk, length};
ghost use Rattle.aquarius_top.specs.BamReply.{IsBamRefusal, IsPrinted};
ghost use Rattle.aquarius_top.specs.FrontFault.{IsFaultBy};
ghost use Rattle.aquarius_top.specs.FrontRefusal.{MOST_INPUT};

use crate::front::{Accepted, FrontFault, accept_program};
use aq_base::refusal::Refusal;
use aq_build::build::build;
use aq_build::build_fault::BuildFault;
use aq_build::built::Built;
use aq_term::memory::Memory;
use bam_text::print::print;
use code_exec::exec_fault::ExecFault;
use code_exec::ready::Ready;
use std::alloc::Global;

/// What a run writes before its answers.
#[derive(Clone, Copy, Debug, PartialEq, Eq)]
pub enum Heading {
    Nothing,
    /// The text of the code.
    Code,
}

impl Heading {
    fn bytes(self, alloc: Global, built: &Built) -> Result<Vec<u8>, Memory> {
        match self {
            Heading::Nothing => Ok(Vec::new(alloc)),
            Heading::Code => print(alloc, built.code().code(), built.atoms()),
        }
    }
}

/// The code of a program with its query, which one of its entries takes; `None` where the code is rejected.
pub fn compile_run(
    alloc: Global,
    query: &str,
    accepted: Accepted,
    heading: Heading,
) -> Result<Option<Ready>, Memory> {
    let built = match build(alloc, accepted.program, accepted.atoms) {
        Ok(built) => built,
        Err(BuildFault::Unsupported) => return Ok(None),
        Err(BuildFault::Memory) => return Err(Memory),
    };
    let heading = heading.bytes(alloc, &built)?;
    let parts = built.parts();
    match Ready::new(alloc, parts.image, parts.atoms, query, heading) {
        Ok(ready) => Ok(Some(ready)),
        Err(ExecFault::Refused(_cause)) => Ok(None),
        Err(ExecFault::Memory) => Err(Memory),
    }
}

/// The text of a program's code. Else the text is refused for its first fault.
pub fn print_program(alloc: Global, text: &[u8]) -> Result<Vec<u8>, FrontFault>
    requires { length text.now ≤ MOST_INPUT }
    ensures refused { IfErr result (IsFaultBy (IsBamRefusal text.now)) }
    ensures printed { IfOk result (λ bytes. IsPrinted text.now bytes.items) }
{
    let read = accept_program(alloc, text)?;
    let built = match build(alloc, read.program, read.atoms) {
        Ok(built) => built,
        Err(BuildFault::Unsupported) => return Err(FrontFault::Refused(Refusal::Unsupported)),
        Err(BuildFault::Memory) => return Err(FrontFault::Memory),
    };
    Ok(print(alloc, built.code().code(), built.atoms())?)
}
