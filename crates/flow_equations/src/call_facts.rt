use crate::argument_facts::{argument_facts, handler_facts};
use crate::fact_list::FactList;
use aq_term::memory::Memory;
use aq_term::proc_name::ProcName;
use kernel_ir::kernel_goal::KernelGoal;
use std::alloc::Global;

/// The facts that a goal gives to the arguments of a predicate that it calls.
#[derive(Debug, Drop)]
pub struct CallFacts {
    pub name: ProcName,
    /// One for each argument that is given, a barrier that is handed on among them.
    pub facts: FactList,
}

/// The calls of a goal, under the facts that `prepare` has made ready for it. A `Catch` calls what it guards and its handler.
pub fn calls_of(
    alloc: Global,
    goal: &KernelGoal,
    env: &FactList,
) -> Result<Vec<CallFacts>, Memory> {
    let mut calls = Vec::new(alloc);
    match goal {
        KernelGoal::Call(name, arguments) => calls.push(CallFacts {
            name: *name,
            facts: argument_facts(alloc, env, arguments.as_slice())?,
        })?,
        KernelGoal::Catch(guarded, arguments, handler, others) => {
            calls.push(CallFacts {
                name: *guarded,
                facts: argument_facts(alloc, env, arguments.as_slice())?,
            })?;
            calls.push(CallFacts {
                name: *handler,
                facts: handler_facts(alloc, env, others.as_slice())?,
            })?;
        }
        _ => {}
    }
    Ok(calls)
}
