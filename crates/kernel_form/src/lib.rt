//! Programs to kernel form: heads become variables, and control constructs become predicates of their own.
#![tactic(auto)]

ghost use Rattle.std.specs.Prelude.{All, IfOk};
ghost use Rattle.kernel_form.specs.Own.{HasOwnVariables};

pub mod clause_form;
pub mod clause_variables;
pub mod predicate_form;

use crate::predicate_form::PredicateForm;
use aq_term::memory::Memory;
use kernel_ir::kernel::Kernel;
use kernel_ir::kernel_predicate::KernelPredicate;
use kernel_ir::kernel_predicates::KernelPredicates;
use source_program::predicate::Predicate;
use source_program::predicate_set::PredicateSet;
use source_program::program::Program;
use std::alloc::Global;

/// The kernel form of a program that keeps the limits of the language, as `gather` gives it:
///
/// - An argument of a head that is a variable with its first occurrence there is the argument. For another one there is a new variable
///   V and a goal `V = argument`; these goals stand first.
/// - `L = R` has a variable on the left, where one side is a variable, and else becomes `V = L, V = R`.
/// - For a compound argument of a call or a built-in there is a new variable V and a goal `V = argument` just before it. The terms that
///   `is` and the comparisons of numbers evaluate stay.
/// - `true` is left out.
/// - A chain of `;`, followed through right sides, is an auxiliary predicate with a clause for each alternative. `(C -> T)` is `C`, a cut
///   to that predicate, `T`; alone it is an auxiliary predicate with this one clause.
/// - `\+ G` is an auxiliary predicate with the clauses `G, cut, fail` and the empty one, and `X \= Y` is `\+ X = Y`.
/// - A condition or a negated goal with a cut of its own is an auxiliary predicate of one clause.
/// - `catch(G,C,R)` is an auxiliary predicate of one clause with one goal, `Catch(g, a, r, b)`, where g has the clause `G`, and r has the ball
///   V as first argument and the clauses `V = C, cut, R` and `throw(V)`. An R with a cut of its own is an auxiliary predicate.
/// - The arguments of an auxiliary predicate are the variables that stand both in the construct and elsewhere in its kernel clause, in order
///   of first occurrence in the construct. Where the construct holds a cut of the source clause, the barrier of that clause comes last.
/// - Auxiliary predicates are numbered in each source predicate, each before those inside it and from left to right. A `catch`, its g and
///   its r have three numbers in a row.
///
/// A kernel predicate of more than 255 arguments, which no program within the limits has, is answered as want of memory.
pub fn to_kernel(alloc: Global, program: &Program) -> Result<Kernel, Memory>
    ensures { IfOk result (λ kernel. All HasOwnVariables kernel.predicates) }
{
    let defined = defined_in(alloc, program)?;
    let mut predicates = Vec::new(alloc);
    for predicate in program.predicates.as_slice() {
        let mut made = predicates_of(alloc, &defined, predicate)?;
        predicates.append(&mut made)?;
    }
    Ok(Kernel {
        predicates: KernelPredicates::from_vec(predicates),
    })
}

/// A predicate of the program in kernel form, and then its auxiliary predicates by number.
fn predicates_of(
    alloc: Global,
    defined: &PredicateSet,
    predicate: &Predicate,
) -> Result<Vec<KernelPredicate>, Memory>
    ensures { IfOk result (λ made. All HasOwnVariables made.items) }
{
    let mut form = PredicateForm::new(alloc, defined, predicate.name, predicate.arity)?;
    for clause in predicate.clauses.as_slice() {
        form.add(clause)?;
    }
    Ok(form.into_predicates())
}

/// The predicates that have clauses.
fn defined_in(alloc: Global, program: &Program) -> Result<PredicateSet, Memory> {
    let mut defined = PredicateSet::new(alloc);
    for predicate in program.predicates.as_slice() {
        defined.add(predicate.name, predicate.arity as usize)?;
    }
    Ok(defined)
}
