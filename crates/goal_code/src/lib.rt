//! Kernel programs to BAM code.
#![tactic(auto)]

ghost use Rattle.std.specs.Prelude.{◌≡◌, ◌≤◌, [], ◌++◌, All, IfOk, IfSome, OnOk, length, map};
ghost use Rattle.goal_code.specs.CodeEntries.{code_entry};
ghost use Rattle.goal_code.specs.Planned.{IsPlanned, signature_planned};
ghost use Rattle.goal_code.specs.Procedures.{IsProcedure, MoreProcs};
ghost use Rattle.goal_code.specs.Signatures.{led_to, signature_at, signature_of, signatures_due};

pub mod arguments;
pub mod builtin;
pub mod call;
pub mod catch;
pub mod clause;
pub mod cut;
pub mod dispatch;
pub mod evaluate;
pub mod goal;
pub mod kind;
pub mod leave;
pub mod leaving;
pub mod liveness;
pub mod prepared;
pub mod procedure;
pub mod raise;
pub mod renumber;
pub mod selection;
pub mod signature;
pub mod slots;
pub mod twins;
pub mod writer;

use crate::procedure::{Planned, procedure};
use aq_term::entries::Entries;
use aq_term::entry::Entry;
use aq_term::memory::Memory;
use aq_term::mode::Mode;
use aq_term::modes::Modes;
use bam_code::code::Code;
use bam_code::procs::Procs;
use bam_code::signatures::Signatures;
use determinism::plans::Plans;
use determinism::predicate_plan::Plan;
use flow_equations::facts::Facts;
use flow_equations::predicate_facts::PredicateFacts;
use kernel_ir::kernel::Kernel;
use kernel_ir::kernel_predicate::KernelPredicate;
use std::alloc::Global;
use unify_special::ground_pool::GroundPool;
use uninit_args::out_args::OutArgs;
use uninit_args::out_plan::OutPlan;

/// The code of a well-formed kernel program: a procedure for each predicate that is reached, in the kernel's order, and the entries
/// as they are, but that they come from code. The facts are the least ones of the program and its entries, and the plans and the
/// results are those that follow from them; all three list the kernel's predicates in its order.
///
/// Registers are numbered as far as 65,535. A result is passed as a hole, which the last goals of a clause fill. What is emitted is
/// to be verified before it is run.
pub fn goal_code(
    alloc: Global,
    kernel: &Kernel,
    facts: &Facts,
    plans: &Plans,
    outs: &OutPlan,
    entries: &Entries,
) -> Result<Code, Memory>
    requires plans { length kernel.now.predicates ≤ length plans.now }
    ensures entries { IfOk result (λ code. code.entries ≡ map code_entry entries.now) }
    ensures imports { IfOk result (λ code. code.imports ≡ []) }
    ensures signatures { IfOk result (λ code. map signature_of code.procs
        ≡ signatures_due kernel.now.predicates facts.now outs.now) }
    ensures procedures { IfOk result (λ code. All (IsProcedure kernel.now.predicates facts.now plans.now) code.procs) }
{
    let mut procs = Procs::new(alloc);
    let mut pool = GroundPool::new(alloc);
    for (number, predicate) in kernel.predicates.as_slice().iter().enumerate() {
        let own = facts.as_slice().get(number);
        let results = outs.as_slice().get(number);
        let planned = planned(predicate, own, &plans.as_slice()[number], results);
        pool = push_procedure(alloc, planned, facts, pool, &mut procs)?;
    }
    Ok(Code {
        entries: code_entries(alloc, entries.as_slice())?,
        imports: Signatures::new(alloc),
        pool: pool.into_pool(),
        procs,
    })
}

/// A predicate with what its code follows from, where it is reached.
fn planned<'a>(
    predicate: &'a KernelPredicate,
    own: Option<&'a PredicateFacts>,
    plan: &'a Plan,
    results: Option<&'a OutArgs>,
) -> Option<Planned<'a>>
    ensures signature { signature_planned result ≡ signature_at predicate.now (led_to own.entry) (led_to results.entry) }
    ensures planned { IfSome result (IsPlanned predicate.now (led_to own.entry) plan.now) }
{
    let own = own?;
    if !own.reached {
        return None;
    }
    Some(Planned {
        predicate,
        own,
        plan,
        results: results?.as_slice(),
    })
}

/// Puts the procedure of a predicate that is reached at the end, and gives the pool back with what its lines name.
fn push_procedure(
    alloc: Global,
    planned: Option<Planned<'_>>,
    facts: &Facts,
    pool: GroundPool,
    procs: &mut Procs,
) -> Result<GroundPool, Memory>
    ensures signature { OnOk result (map signature_of procs.new
        ≡ map signature_of procs.old ++ signature_planned planned.entry) }
    ensures procedure { OnOk result (MoreProcs planned.entry procs.old procs.new) }
{
    let Some(planned) = planned else {
        return Ok(pool);
    };
    let (made, filled) = procedure(alloc, planned, facts, pool)?;
    procs.push(made)?;
    Ok(filled)
}

/// Entries as code has them.
fn code_entries(alloc: Global, entries: &[Entry]) -> Result<Entries, Memory>
    ensures { IfOk result (λ copies. copies ≡ map code_entry entries.now) }
{
    let mut copies = Entries::new(alloc);
    for entry in entries {
        copies.push(Entry {
            name: entry.name,
            arity: entry.arity,
            modes: copied_modes(alloc, entry.modes.as_slice())?,
            clause: 0,
        })?;
    }
    Ok(copies)
}

fn copied_modes(alloc: Global, modes: &[Mode]) -> Result<Modes, Memory>
    ensures { IfOk result (λ copies. copies ≡ modes.now) }
{
    Ok(Modes::from_vec(Vec::from_slice(alloc, modes)?))
}
