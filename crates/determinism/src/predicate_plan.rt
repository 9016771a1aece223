ghost use Rattle.std.specs.Prelude.{◌≡◌, IfOk};
ghost use Rattle.determinism.specs.Plans.{IsPlanOf, is_det, keys_for};

use crate::choose::selected_argument;
use crate::clause_key::{clause_keys, no_keys};
use crate::distinct::are_distinct;
use crate::keys::Keys;
use aq_term::memory::Memory;
use flow_equations::fact_list::FactList;
use kernel_ir::kernel_predicate::KernelPredicate;
use std::alloc::Global;
use type_lattice::fact::{Fact, below};

/// How a call of a predicate finds its clauses.
#[derive(Debug, Drop)]
pub struct Plan {
    /// The argument that tells the clauses apart, from 0, where one does.
    pub selected: Option<u8>,
    /// Whether each call has at most one clause whose head fits.
    pub det: bool,
    /// The key of each clause at the selected argument.
    pub keys: Keys,
}

/// The plan of a predicate, by the facts of the arguments at its calls.
pub fn plan_of(alloc: Global, predicate: &KernelPredicate, call: &FactList) -> Result<Plan, Memory>
    ensures { IfOk result (IsPlanOf predicate.now call.now) }
{
    let selected = selected_argument(alloc, predicate, call)?;
    let keys = keys_for(alloc, predicate, selected)?;
    let det = is_det(alloc, predicate, call, selected, &keys)?;
    Ok(Plan {
        selected,
        det,
        keys,
    })
}

/// The key of each clause at the selected argument, or none where none is selected.
fn keys_for(
    alloc: Global,
    predicate: &KernelPredicate,
    selected: Option<u8>,
) -> Result<Keys, Memory>
    ensures { IfOk result (λ keys. keys ≡ keys_for predicate.now selected) }
{
    let clauses = predicate.clauses.as_slice();
    match selected {
        Some(argument) => clause_keys(alloc, clauses, argument),
        None => no_keys(alloc, clauses),
    }
}

/// Whether each call has at most one clause whose head fits: there is one clause, or the selected argument is never a variable
/// at a call and each clause has a key of its own there.
fn is_det(
    alloc: Global,
    predicate: &KernelPredicate,
    call: &FactList,
    selected: Option<u8>,
    keys: &Keys,
) -> Result<bool, Memory>
    ensures { IfOk result (λ det. det ≡ is_det predicate.now call.now selected keys.now) }
{
    if predicate.clauses.len() == 1 {
        return Ok(true);
    }
    match selected {
        Some(argument) if below(call.fact(argument as u32), Fact::Nonvar) => {
            are_distinct(alloc, keys.as_slice())
        }
        _ => Ok(false),
    }
}
