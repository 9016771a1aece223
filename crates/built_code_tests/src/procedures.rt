//! The procedures are those of the predicates that are reached, in their order, with the types of their facts; the entries are the
//! program's, and nothing is imported.

use crate::compiled::Compiled;
use aq_term::entry::Entry;
use bam_code::arg_type::ArgType;
use bam_code::procedure::Proc;
use bam_code::result_type::ResultType;
use flow_equations::predicate_facts::PredicateFacts;
use kernel_ir::kernel_predicate::KernelPredicate;
use std::alloc::Global;
use std::test::Fail;
use type_lattice::fact::Fact;

/// What of this is not so, where something is not.
pub fn broken(alloc: Global, compiled: &Compiled) -> Result<Option<String>, Fail> {
    if compiled.code.imports.len() > 0 {
        return Ok(Some(String::from_str(alloc, "imports")?));
    }
    if !are_same_entries(
        compiled.code.entries.as_slice(),
        compiled.entries.as_slice(),
    ) {
        return Ok(Some(String::from_str(alloc, "entries")?));
    }
    let procs = compiled.code.procs.as_slice();
    let mut number = 0;
    for facts in compiled.facts.as_slice() {
        if facts.reached {
            if !is_proc_of(compiled, procs.get(number), facts) {
                return Ok(Some(format!(in alloc; "proc {number}: name or types")?));
            }
            number = number.saturating_add(1);
        }
    }
    if number != procs.len() {
        return Ok(Some(format!(in alloc; "{} procs for {number} predicates", procs.len())?));
    }
    Ok(None)
}

/// Whether these are the same predicates with the same modes, the first ones with clause 0.
fn are_same_entries(code: &[Entry], program: &[Entry]) -> bool {
    code.len() == program.len()
        && code
            .iter()
            .zip(program)
            .all(|(ours, theirs)| is_same(ours, theirs))
}

fn is_same(ours: &Entry, theirs: &Entry) -> bool {
    ours.clause == 0
        && ours.name == theirs.name
        && ours.arity == theirs.arity
        && ours.modes.as_slice() == theirs.modes.as_slice()
}

/// Whether a procedure is that of a predicate with these facts.
fn is_proc_of(compiled: &Compiled, proc: Option<&Proc>, facts: &PredicateFacts) -> bool {
    match (proc, compiled.predicate(facts.name)) {
        (Some(proc), Some(predicate)) => {
            proc.signature.name == facts.name
                && are_args(proc, predicate, facts)
                && are_results(proc, predicate, facts)
        }
        _ => false,
    }
}

/// Whether the argument types are the facts at the calls, and `bar` for a barrier.
fn are_args(proc: &Proc, predicate: &KernelPredicate, facts: &PredicateFacts) -> bool {
    let args = proc.signature.args.as_slice();
    let call = facts.call.as_slice();
    args.len() == call.len().saturating_add(usize::from(predicate.barrier))
        && args
            .iter()
            .zip(call)
            .all(|(arg, fact)| argument_of(*fact) == Some(*arg))
        && (!predicate.barrier || args.last() == Some(&ArgType::Bar))
}

/// Whether the result types are the facts at a success, and `bar` for a barrier.
fn are_results(proc: &Proc, predicate: &KernelPredicate, facts: &PredicateFacts) -> bool {
    let results = proc.signature.results.as_slice();
    let success = facts.success.as_slice();
    let mut number = 0;
    for (call, fact) in facts.call.as_slice().iter().zip(success) {
        if results.get(number) != Some(&result_of(*call, *fact)) {
            return false;
        }
        number = number.saturating_add(1);
    }
    results.len() == success.len().saturating_add(usize::from(predicate.barrier))
        && (!predicate.barrier || results.last() == Some(&ResultType::Bar))
}

fn argument_of(fact: Fact) -> Option<ArgType> {
    match fact {
        Fact::Bot => None,
        Fact::Out => Some(ArgType::Out),
        Fact::Full => Some(ArgType::Full),
        Fact::GroundDirect => Some(ArgType::GroundDirect),
        Fact::Ground => Some(ArgType::Ground),
        Fact::Direct => Some(ArgType::Direct),
        Fact::Nonvar => Some(ArgType::Nonvar),
        Fact::Any => Some(ArgType::Any),
    }
}

fn result_of(call: Fact, success: Fact) -> ResultType {
    match success {
        Fact::Bot if call == Fact::Out => ResultType::Full,
        Fact::Bot | Fact::Ground => ResultType::Ground,
        Fact::Full => ResultType::Full,
        Fact::GroundDirect => ResultType::GroundDirect,
        Fact::Direct => ResultType::Direct,
        Fact::Nonvar => ResultType::Nonvar,
        Fact::Out | Fact::Any => ResultType::Any,
    }
}
