ghost use Rattle.std.specs.Prelude.{◌≡◌, IfOk};
ghost use Rattle.std.specs.List.{AllZip};
ghost use Rattle.bam_peephole.specs.Cleaned.{IsCleaned};

use crate::joined::joined;
use crate::reached::reached;
use crate::threads::led;
use aq_term::memory::Memory;
use bam_code::code::Code;
use bam_code::lines::Lines;
use bam_code::procedure::Proc;
use bam_code::procs::Procs;
use std::alloc::Global;

/// Cleans each procedure of a code whose labels are named by earlier lines alone:
///
/// - A `move` of a place to itself goes.
/// - A `jump` to a `jump` names the latter's target.
/// - Lines that no run comes to go, with their labels.
/// - Of two labels side by side the first goes, and its uses name the second. Alternatives and the labels of balls stay.
/// - A `jump` to the label directly behind it goes.
///
/// A label that nobody names stays where a run goes on to it, since it says what holds there. In the end all labels are numbered
/// from 0 in the order of the lines.
///
/// One round does it. Jumps are led on from the last line to the first, so each finds where its target leads in the end. After that
/// no jump leads to a jump or to a label in front of another one, and what is behind its target stays: it is reached as soon as the
/// jump is, and it is no jump and no `move` in place, since the line directly behind an alternative or the label of a ball is
/// neither. So the labels in front of a line grow at their front alone, where a line before them goes, and a jump in front of
/// them names the last one or leads past them. To leave out a jump to the label behind it makes no line unreached, since a run
/// goes on there in its place.
///
/// A number that no later label has is replaced by one that no label has.
pub fn clean(alloc: Global, code: Code) -> Result<Code, Memory>
    ensures entries { IfOk result (λ cleaned. cleaned.entries ≡ code.entries) }
    ensures imports { IfOk result (λ cleaned. cleaned.imports ≡ code.imports) }
    ensures pool { IfOk result (λ cleaned. cleaned.pool ≡ code.pool) }
    ensures procs { IfOk result (λ cleaned. AllZip IsCleaned code.procs cleaned.procs) }
{
    let Code {
        entries,
        imports,
        pool,
        procs,
    } = code;
    Ok(Code {
        entries,
        imports,
        pool,
        procs: clean_procs(alloc, procs)?,
    })
}

fn clean_procs(alloc: Global, procs: Procs) -> Result<Procs, Memory>
    ensures { IfOk result (λ cleaned. AllZip IsCleaned procs cleaned) }
{
    let mut cleaned = Procs::new(alloc);
    for proc in procs.into_vec() {
        cleaned.push(clean_proc(alloc, proc)?)?;
    }
    Ok(cleaned)
}

fn clean_proc(alloc: Global, proc: Proc) -> Result<Proc, Memory>
    ensures { IfOk result (λ cleaned. IsCleaned proc cleaned) }
{
    let Proc { signature, lines } = proc;
    let led = led(alloc, lines.into_vec())?;
    let reached = reached(alloc, led)?;
    let cleaned = joined(alloc, reached)?;
    Ok(Proc {
        signature,
        lines: Lines::from_vec(cleaned),
    })
}
