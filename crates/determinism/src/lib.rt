//! Which argument tells the clauses of a predicate apart, and which calls have at most one clause whose head fits.
#![tactic(auto)]

ghost use Rattle.std.specs.Prelude.{◌≡◌, IfOk, length};
ghost use Rattle.determinism.specs.Plans.{ArePlans, IsPlanOf, call_of, facts_at};

pub mod choose;
pub mod clause_key;
pub mod distinct;
pub mod key;
pub mod keys;
pub mod plans;
pub mod predicate_plan;

use crate::plans::Plans;
use crate::predicate_plan::{Plan, plan_of};
use aq_term::memory::Memory;
use flow_equations::fact_list::FactList;
use flow_equations::facts::Facts;
use flow_equations::predicate_facts::PredicateFacts;
use kernel_ir::kernel::Kernel;
use kernel_ir::kernel_predicate::KernelPredicate;
use std::alloc::Global;

/// The plan of each predicate, in the kernel's order, by the facts of the arguments at its calls. The facts list the predicates
/// in the kernel's order; of a predicate past their end nothing is known.
pub fn plan(alloc: Global, kernel: &Kernel, facts: &Facts) -> Result<Plans, Memory>
    ensures len { IfOk result (λ plans. length plans ≡ length kernel.now.predicates) }
    ensures plans { IfOk result (ArePlans kernel.now.predicates facts.now) }
{
    let predicates = kernel.predicates.as_slice();
    let mut plans = Vec::with_capacity(alloc, predicates.len())?;
    for (place, predicate) in predicates.iter().enumerate() {
        plans.push(plan_by(alloc, predicate, facts.as_slice().get(place))?)?;
    }
    Ok(Plans::from_vec(plans))
}

/// The plan of a predicate, by what is known of its calls.
fn plan_by(
    alloc: Global,
    predicate: &KernelPredicate,
    known: Option<&PredicateFacts>,
) -> Result<Plan, Memory>
    ensures { IfOk result (IsPlanOf predicate.now (call_of (facts_at known.entry))) }
{
    match known {
        Some(facts) => plan_of(alloc, predicate, &facts.call),
        None => plan_of(alloc, predicate, &FactList::new(alloc)),
    }
}
