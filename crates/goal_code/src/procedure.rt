ghost use Rattle.std.specs.Prelude.{◌≡◌, IfOk};
ghost use Rattle.goal_code.specs.Procedures.{IsProcedureOf};
ghost use Rattle.goal_code.specs.Signatures.{signature_due};

use crate::renumber::renumbered;
use crate::signature::signature_of;
use crate::writer::Writer;
use aq_term::memory::Memory;
use bam_code::procedure::Proc;
use determinism::predicate_plan::Plan;
use flow_equations::facts::Facts;
use flow_equations::predicate_facts::PredicateFacts;
use kernel_ir::kernel_predicate::KernelPredicate;
use std::alloc::Global;
use unify_special::ground_pool::GroundPool;

/// A predicate with all that its code follows from.
#[derive(Clone, Copy, Drop)]
pub struct Planned<'a> {
    pub predicate: &'a KernelPredicate,
    /// The facts of its arguments.
    pub own: &'a PredicateFacts,
    pub plan: &'a Plan,
    /// The numbers of the arguments that are results.
    pub results: &'a [u8],
}

/// The procedure of a predicate that is reached, and the pool with the entries that its lines name.
pub fn procedure(
    alloc: Global,
    planned: Planned<'_>,
    facts: &Facts,
    pool: GroundPool,
) -> Result<(Proc, GroundPool), Memory>
    ensures signature { IfOk result (λ made. made.0.signature
        ≡ signature_due planned.entry.predicate.now planned.entry.own.now planned.entry.results.now) }
    ensures procedure { IfOk result (λ made. IsProcedureOf planned.entry.predicate.now planned.entry.own.now planned.entry.plan.now made.0) }
{
    let Planned {
        predicate,
        own,
        plan,
        results,
    } = planned;
    let signature = signature_of(alloc, predicate, own, results)?;
    let mut writer = Writer::new(alloc, facts, predicate, own, &signature, pool);
    writer.clauses(plan)?;
    let (lines, labels, pool) = writer.finish();
    let lines = renumbered(alloc, lines, labels)?;
    Ok((Proc { signature, lines }, pool))
}
