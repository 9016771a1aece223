ghost use Rattle.std.specs.Prelude.{◌≡◌, [], All, IfOk, map};
ghost use Rattle.aq_build.specs.Built.{IsBuilt};
ghost use Rattle.goal_code.specs.CodeEntries.{code_entry};
ghost use Rattle.goal_code.specs.Signatures.{signature_of, signatures_due};
ghost use Rattle.uninit_args.specs.Results.{plans_of};

use aq_term::entries::Entries;
use aq_term::memory::Memory;
use bam_code::code::Code;
use bam_peephole::clean::clean;
use determinism::plan;
use flow_equations::facts::Facts;
use goal_code::goal_code;
use kernel_ir::kernel::Kernel;
use move_coalescing::coalesce::coalesce;
use reg_alloc::allocate::allocate;
use std::alloc::Global;
use uninit_args::results;

/// The code of a kernel program, cleaned, without moves that can be spared, and with registers that a machine has. The
/// facts are the least of the kernel and the entries.
#[tactic(auto, using(crate::proofs::Signatures::cleaned_signatures, crate::proofs::Signatures::coalesced_signatures, crate::proofs::Signatures::allocated_signatures))]
pub fn emit(
    alloc: Global,
    kernel: &Kernel,
    facts: &Facts,
    entries: &Entries,
) -> Result<Code, Memory>
    ensures entries { IfOk result (λ code. code.entries ≡ map code_entry entries.now) }
    ensures imports { IfOk result (λ code. code.imports ≡ []) }
    ensures signatures { IfOk result (λ code. map signature_of code.procs
        ≡ signatures_due kernel.now.predicates facts.now (plans_of kernel.now.predicates facts.now)) }
    ensures procedures { IfOk result (λ code. All (IsBuilt kernel.now.predicates facts.now) code.procs) }
{
    let plans = plan(alloc, kernel, facts)?;
    let outs = results(alloc, kernel, facts)?;
    let code = goal_code(alloc, kernel, facts, &plans, &outs, entries)?;
    let cleaned = clean(alloc, code)?;
    let coalesced = coalesce(alloc, cleaned)?;
    allocate(alloc, coalesced)
}
