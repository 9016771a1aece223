ghost use Rattle.std.specs.Prelude.{◌≡◌, OnOk, OnErr, length};

use crate::compound_rule::compound_rule;
use crate::constant_rule::constant_rule;
use crate::fact_list::FactList;
use crate::occurrences::term_variables;
use crate::variable_rule::variable_rule;
use aq_term::memory::Memory;
use aq_term::term::Term;
use std::alloc::Global;

/// The goal `X = T`, in which no variable is out that occurs twice. After want of memory the facts are as they were.
pub fn unify_rule(
    alloc: Global,
    env: &mut FactList,
    variable: u32,
    term: &Term,
) -> Result<(), Memory>
    ensures len { length env.new ≡ length env.old }
    ensures err { OnErr result (env.new ≡ env.old) }
{
    if let Term::Var(other) = term {
        variable_rule(env, variable, *other);
        return Ok(());
    }
    let parts = term_variables(alloc, term)?;
    if parts.is_empty() {
        constant_rule(env, variable);
    } else {
        compound_rule(env, variable, parts.as_slice());
    }
    Ok(())
}
