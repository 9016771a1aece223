ghost use Rattle.std.specs.Prelude.{◌≡◌, IfOk, IfSome, OnErr, length};

use crate::builtin_rule::builtin_rule;
use crate::call_rule::call_rule;
use crate::fact_list::FactList;
use crate::facts::Facts;
use crate::prepare::prepare;
use crate::progress::Progress;
use crate::unify_rule::unify_rule;
use aq_term::memory::Memory;
use kernel_ir::kernel_goal::KernelGoal;
use std::alloc::Global;

/// The facts of a clause's variables behind a goal, by those before it and those of the predicates, or none where nothing behind
/// the goal is taken.
///
/// The goal is one of a well-formed kernel program of which `facts` lists the predicates, and `env` has a fact for each variable of
/// the clause. A call of a predicate that is not listed does not succeed.
pub fn transfer(
    alloc: Global,
    goal: &KernelGoal,
    env: &FactList,
    facts: &Facts,
) -> Result<Option<FactList>, Memory>
    ensures { IfOk result (λ found. IfSome found (λ after. length after ≡ length env.now)) }
{
    let mut after = env.copy(alloc)?;
    prepare(alloc, goal, &mut after)?;
    match take(alloc, goal, &mut after, facts)? {
        Progress::GoesOn => Ok(Some(after)),
        Progress::Ends => Ok(None),
    }
}

/// Takes a goal for which `prepare` has made the facts ready. After want of memory they are as they were.
pub fn take(
    alloc: Global,
    goal: &KernelGoal,
    env: &mut FactList,
    facts: &Facts,
) -> Result<Progress, Memory>
    ensures len { length env.new ≡ length env.old }
    ensures err { OnErr result (env.new ≡ env.old) }
{
    match goal {
        KernelGoal::Unify(variable, term) => {
            unify_rule(alloc, env, *variable, term)?;
            Ok(Progress::GoesOn)
        }
        KernelGoal::Call(name, arguments) => match facts.find(name) {
            Some(callee) => Ok(call_rule(env, arguments.as_slice(), callee)),
            None => Ok(Progress::Ends),
        },
        KernelGoal::Builtin(builtin, arguments) => {
            builtin_rule(alloc, env, *builtin, arguments.as_slice())?;
            Ok(Progress::GoesOn)
        }
        KernelGoal::Undefined(_, _) | KernelGoal::Fail | KernelGoal::Throw(_) => Ok(Progress::Ends),
        KernelGoal::Cut | KernelGoal::CutTo(_) | KernelGoal::Catch(_, _, _, _) => {
            Ok(Progress::GoesOn)
        }
    }
}
