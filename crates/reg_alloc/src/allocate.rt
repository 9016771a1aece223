ghost use Rattle.std.specs.Prelude.{◌≡◌, IfOk};
ghost use Rattle.std.specs.List.{AllZip};
ghost use Rattle.reg_alloc.specs.Allocated.{IsAllocated};

use crate::rename::renamed;
use crate::scan::renaming;
use aq_term::memory::Memory;
use bam_code::code::Code;
use bam_code::lines::Lines;
use bam_code::procedure::Proc;
use bam_code::procs::Procs;
use std::alloc::Global;

/// Gives the registers from r64 on other numbers from r64 on, one procedure at a time, and puts the items of labels, alternatives and
/// labels of balls in order again. Nothing else changes.
///
/// The interval of a register is the lines from the first that names it to the last. Where a structure or a list cell is made, each
/// push names its register too. A register gets, at the first line of its interval, the least number that no interval holds there. So
/// registers whose intervals have a line in common get distinct numbers, and a procedure needs as many as intervals have one line
/// in common. Since runs only go to later lines, each word that is read stands in its register from the first line to the last.
///
/// A `try` or a `catch` that keeps r64 is out of place here, since its registers are not told by name. Where more numbers are needed
/// than there are registers, the last ones share a number that no text of code can have.
pub fn allocate(alloc: Global, code: Code) -> Result<Code, Memory>
    ensures entries { IfOk result (λ allocated. allocated.entries ≡ code.entries) }
    ensures imports { IfOk result (λ allocated. allocated.imports ≡ code.imports) }
    ensures pool { IfOk result (λ allocated. allocated.pool ≡ code.pool) }
    ensures procs { IfOk result (λ allocated. AllZip IsAllocated code.procs allocated.procs) }
{
    let Code {
        entries,
        imports,
        pool,
        procs,
    } = code;
    Ok(Code {
        entries,
        imports,
        pool,
        procs: allocate_procs(alloc, procs)?,
    })
}

fn allocate_procs(alloc: Global, procs: Procs) -> Result<Procs, Memory>
    ensures { IfOk result (λ allocated. AllZip IsAllocated procs allocated) }
{
    let mut allocated = Procs::new(alloc);
    for proc in procs.into_vec() {
        allocated.push(allocate_proc(alloc, proc)?)?;
    }
    Ok(allocated)
}

fn allocate_proc(alloc: Global, proc: Proc) -> Result<Proc, Memory>
    ensures { IfOk result (λ allocated. IsAllocated proc allocated) }
{
    let Proc { signature, lines } = proc;
    let renaming = renaming(alloc, lines.as_slice())?;
    let renamed = renamed(alloc, lines.into_vec(), &renaming)?;
    Ok(Proc {
        signature,
        lines: Lines::from_vec(renamed),
    })
}
