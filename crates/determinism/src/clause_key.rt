ghost use Rattle.std.specs.Prelude.{◌≡◌, IfOk, None, map};
ghost use Rattle.determinism.specs.Keys.{clause_key, head_key};

use crate::key::Key;
use crate::keys::Keys;
use aq_term::memory::Memory;
use kernel_ir::kernel_clause::KernelClause;
use kernel_ir::kernel_goal::KernelGoal;
use std::alloc::Global;

/// The key of each clause at an argument.
pub fn clause_keys(alloc: Global, clauses: &[KernelClause], argument: u8) -> Result<Keys, Memory>
    ensures { IfOk result (λ keys. keys ≡ map (clause_key argument) clauses.now) }
{
    let mut keys = Vec::with_capacity(alloc, clauses.len())?;
    for clause in clauses {
        keys.push(head_key(clause.goals.as_slice(), argument))?;
    }
    Ok(Keys::from_vec(keys))
}

/// No key for each clause.
pub fn no_keys(alloc: Global, clauses: &[KernelClause]) -> Result<Keys, Memory>
    ensures { IfOk result (λ keys. keys ≡ map (λ _. None) clauses.now) }
{
    let mut keys = Vec::with_capacity(alloc, clauses.len())?;
    for _clause in clauses {
        keys.push(None)?;
    }
    Ok(Keys::from_vec(keys))
}

/// The key that the head goals, which are the unifications that the goals begin with, give an argument: that of the first term
/// other than a variable that the argument is unified with.
fn head_key(goals: &[KernelGoal], argument: u8) -> Option<Key>
    ensures { result ≡ head_key argument goals.now }
{
    for goal in goals {
        let KernelGoal::Unify(variable, term) = goal else {
            return None;
        };
        if *variable == argument as u32 {
            if let Some(key) = Key::of_term(term) {
                return Some(key);
            }
        }
    }
    None
}
