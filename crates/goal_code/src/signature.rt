ghost use Rattle.std.specs.Prelude.{◌≡◌, IfOk};
ghost use Rattle.goal_code.specs.Signatures.{argument_type, argument_types, result_types, signature_due, success_by};
ghost use Rattle.goal_code.specs.TypesOf.{result_type, type_of_argument, type_of_result};

use aq_term::memory::Memory;
use bam_code::arg_type::ArgType;
use bam_code::arg_types::ArgTypes;
use bam_code::result_type::ResultType;
use bam_code::signature::Signature;
use bam_code::types::Types;
use flow_equations::predicate_facts::PredicateFacts;
use kernel_ir::kernel_predicate::KernelPredicate;
use std::alloc::Global;
use type_lattice::fact::{Fact, strip};

/// The signature of a predicate's procedure: its arguments have the types of the facts at its calls, but for those that are results,
/// and its results those of the facts at its successes. A barrier comes last.
pub fn signature_of(
    alloc: Global,
    predicate: &KernelPredicate,
    own: &PredicateFacts,
    results: &[u8],
) -> Result<Signature, Memory>
    ensures { IfOk result (λ made. made ≡ signature_due predicate.now own.now results.now) }
{
    let mut args = argument_types(alloc, own.call.as_slice(), results)?;
    let mut types = result_types(alloc, args.as_slice(), own.success.as_slice())?;
    if predicate.barrier {
        args.push(ArgType::Bar)?;
        types.push(ResultType::Bar)?;
    }
    Ok(Signature {
        name: predicate.name,
        args,
        results: types,
    })
}

/// The types of arguments of which this is so at each call.
fn argument_types(alloc: Global, calls: &[Fact], results: &[u8]) -> Result<ArgTypes, Memory>
    ensures { IfOk result (λ types. types ≡ argument_types results.now calls.now) }
{
    let mut types = ArgTypes::new(alloc);
    for (number, call) in calls.iter().enumerate() {
        types.push(argument_type(number, *call, results))?;
    }
    Ok(types)
}

/// What the procedure says at its return of arguments of these types, of which this is so at each success.
fn result_types(alloc: Global, args: &[ArgType], successes: &[Fact]) -> Result<Types, Memory>
    ensures { IfOk result (λ types. types ≡ result_types args.now successes.now) }
{
    let mut types = Types::new(alloc);
    for (number, arg) in args.iter().enumerate() {
        types.push(result_type(*arg, success_by(successes.get(number))))?;
    }
    Ok(types)
}

/// The fact of an argument where a call succeeds. Anything is so of an argument of which no fact tells.
pub fn success_by(success: Option<&Fact>) -> Fact
    ensures { result ≡ success_by success.entry }
{
    match success {
        Some(fact) => *fact,
        None => Fact::Any,
    }
}

/// The type of the argument of this number, of which this is so at each call. No predicate has one past 255.
fn argument_type(number: usize, call: Fact, results: &[u8]) -> ArgType
    ensures { result ≡ argument_type results.now number call }
{
    if results.contains(&u8::try_from(number).unwrap_or(u8::MAX)) {
        ArgType::Out
    } else {
        type_of_argument(call)
    }
}

fn type_of_argument(call: Fact) -> ArgType
    ensures { result ≡ type_of_argument call }
{
    match call {
        Fact::Bot | Fact::Full => ArgType::Full,
        Fact::GroundDirect => ArgType::GroundDirect,
        Fact::Ground => ArgType::Ground,
        Fact::Direct => ArgType::Direct,
        Fact::Nonvar => ArgType::Nonvar,
        Fact::Out | Fact::Any => ArgType::Any,
    }
}

/// What the procedure says of an argument at its return. Of one that is no result it speaks of the term alone.
fn result_type(arg: ArgType, success: Fact) -> ResultType
    ensures { result ≡ result_type arg success }
{
    match arg {
        ArgType::Out => type_of_result(success),
        _ => type_of_result(strip(success)),
    }
}

fn type_of_result(success: Fact) -> ResultType
    ensures { result ≡ type_of_result success }
{
    match success {
        Fact::Bot | Fact::Full => ResultType::Full,
        Fact::GroundDirect => ResultType::GroundDirect,
        Fact::Ground => ResultType::Ground,
        Fact::Direct => ResultType::Direct,
        Fact::Nonvar => ResultType::Nonvar,
        Fact::Out | Fact::Any => ResultType::Any,
    }
}
