ghost use Rattle.std.specs.Prelude.{◌≡◌, IfOk};
ghost use Rattle.std.specs.List.{AllZip};
ghost use Rattle.move_coalescing.specs.Coalesced.{IsCoalesced};

use crate::merge::merged;
use crate::reloads::without_reloads;
use aq_term::memory::Memory;
use bam_code::code::Code;
use bam_code::lines::Lines;
use bam_code::procedure::Proc;
use bam_code::procs::Procs;
use std::alloc::Global;

/// Leaves out moves into registers, in each procedure of a cleaned code of which the verifier accepts each line. All other lines stay, in
/// their order, and name other registers at most.
///
/// - A `move` of a register from r64 on to one below goes where the line that sets the former can set the latter at once: no
///   line between the two names the latter, and no line behind reads the former.
/// - A `move` of a slot to a register goes where the register's word was put into the slot and is still in the register.
/// - A `move` of a register to itself goes.
///
/// Lines are looked at in stretches that a run goes through from the first to the last, or fails or raises in. So a stretch ends at a
/// label of any kind, at a call, at a line that may go to a label, and where a choice or a catcher is made, which keeps
/// registers.
pub fn coalesce(alloc: Global, code: Code) -> Result<Code, Memory>
    ensures entries { IfOk result (λ coalesced. coalesced.entries ≡ code.entries) }
    ensures imports { IfOk result (λ coalesced. coalesced.imports ≡ code.imports) }
    ensures pool { IfOk result (λ coalesced. coalesced.pool ≡ code.pool) }
    ensures procs { IfOk result (λ coalesced. AllZip IsCoalesced code.procs coalesced.procs) }
{
    let Code {
        entries,
        imports,
        pool,
        procs,
    } = code;
    Ok(Code {
        entries,
        imports,
        pool,
        procs: coalesce_procs(alloc, procs)?,
    })
}

fn coalesce_procs(alloc: Global, procs: Procs) -> Result<Procs, Memory>
    ensures { IfOk result (λ coalesced. AllZip IsCoalesced procs coalesced) }
{
    let mut coalesced = Procs::new(alloc);
    for proc in procs.into_vec() {
        coalesced.push(coalesce_proc(alloc, proc)?)?;
    }
    Ok(coalesced)
}

fn coalesce_proc(alloc: Global, proc: Proc) -> Result<Proc, Memory>
    ensures { IfOk result (λ coalesced. IsCoalesced proc coalesced) }
{
    let Proc { signature, lines } = proc;
    let kept = without_reloads(alloc, lines.into_vec())?;
    let merged = merged(alloc, kept)?;
    Ok(Proc {
        signature,
        lines: Lines::from_vec(merged),
    })
}
