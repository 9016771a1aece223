ghost use Rattle.std.specs.Prelude.{◌≡◌, OnErr, length};

use crate::constant_rule::constant_rule;
use crate::env::ground_all;
use crate::fact_list::FactList;
use crate::occurrences::variables_of_all;
use aq_term::memory::Memory;
use aq_term::term::Term;
use std::alloc::Global;

/// The goal `X is E` with these arguments: an X that is out is the value itself, and what was evaluated is ground. After want of
/// memory the facts are as they were.
pub fn is_rule(alloc: Global, env: &mut FactList, arguments: &[Term]) -> Result<(), Memory>
    ensures len { length env.new ≡ length env.old }
    ensures err { OnErr result (env.new ≡ env.old) }
{
    if let [result_term, expression @ ..] = arguments {
        let evaluated = variables_of_all(alloc, expression)?;
        if let Term::Var(variable) = result_term {
            constant_rule(env, *variable);
        }
        ground_all(env, evaluated.as_slice());
    }
    Ok(())
}
