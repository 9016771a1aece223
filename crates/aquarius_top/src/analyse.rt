//! The facts of a program, for its reader.
ghost use Rattle.std.specs.Prelude.{◌≤◌, IfErr, IfOk, length};
ghost use Rattle.aquarius_top.specs.AnalyseReply.{IsAnalysed, IsProgramRefusal};
ghost use Rattle.aquarius_top.specs.FrontFault.{IsFaultBy};
ghost use Rattle.aquarius_top.specs.FrontRefusal.{MOST_INPUT};

use crate::front::{FrontFault, accept_program};
use analyse_text::analyse_text;
use std::alloc::Global;

/// What is known at each call of a program and after it, a line for each predicate that an entry reaches. Else the text is
/// refused for its first fault.
pub fn analyse_program(alloc: Global, text: &[u8]) -> Result<Vec<u8>, FrontFault>
    requires { length text.now ≤ MOST_INPUT }
    ensures refused { IfErr result (IsFaultBy (IsProgramRefusal text.now)) }
    ensures analysed { IfOk result (λ bytes. IsAnalysed text.now bytes.items) }
{
    let read = accept_program(alloc, text)?;
    Ok(analyse_text(alloc, &read.program, &read.atoms)?)
}
