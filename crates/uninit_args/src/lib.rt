//! Which arguments of a predicate are results: variables that nobody has seen where it is called.
#![tactic(auto)]

ghost use Rattle.std.specs.Prelude.{◌≡◌, IfOk, min};
ghost use Rattle.uninit_args.specs.Results.{outs_by, outs_of, plans_of};

pub mod out_args;
pub mod out_plan;

use crate::out_args::OutArgs;
use crate::out_plan::OutPlan;
use aq_term::memory::Memory;
use flow_equations::facts::Facts;
use flow_equations::predicate_facts::PredicateFacts;
use kernel_ir::kernel::Kernel;
use std::alloc::Global;
use type_lattice::fact::Fact;

/// The results of each predicate, in the kernel's order. The facts list the predicates in that order; a predicate past their end
/// has no results.
pub fn results(alloc: Global, kernel: &Kernel, facts: &Facts) -> Result<OutPlan, Memory>
    ensures { IfOk result (λ plan. plan ≡ plans_of kernel.now.predicates facts.now) }
{
    let predicates = kernel.predicates.as_slice();
    let mut plan = Vec::with_capacity(alloc, predicates.len())?;
    for (place, _predicate) in predicates.iter().enumerate() {
        plan.push(outs_by(alloc, facts.as_slice().get(place))?)?;
    }
    Ok(OutPlan::from_vec(plan))
}

/// The results of a predicate, by what is known of its calls.
fn outs_by(alloc: Global, known: Option<&PredicateFacts>) -> Result<OutArgs, Memory>
    ensures { IfOk result (λ outs. outs ≡ outs_by known.entry) }
{
    match known {
        Some(facts) => out_arguments(alloc, facts.call.as_slice()),
        None => Ok(OutArgs::from_vec(Vec::new(alloc))),
    }
}

/// The numbers of the arguments that are results by the facts of a call, ascending. A predicate has at most 63 arguments.
pub fn out_arguments(alloc: Global, call: &[Fact]) -> Result<OutArgs, Memory>
    ensures { IfOk result (λ outs. outs ≡ outs_of call.now) }
{
    let mut outs = Vec::new(alloc);
    for (argument, fact) in call.iter().enumerate() {
        if *fact == Fact::Out {
            outs.push(number(argument))?;
        }
    }
    Ok(OutArgs::from_vec(outs))
}

/// An argument's number; no predicate has one past 255.
fn number(argument: usize) -> u8
    ensures { result ≡ min argument 255 }
{
    u8::try_from(argument).unwrap_or(u8::MAX)
}
