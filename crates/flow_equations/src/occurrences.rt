ghost use Rattle.std.specs.Prelude.{◌≡◌, ◌++◌, OnOk, IfOk, map};
ghost use Rattle.aq_term.specs.PlainOf.{plain};
ghost use Rattle.term_meaning.specs.Plain.{plains, variables, variables_of_all};
ghost use Rattle.flow_equations.specs.Prepared as prepared;

use aq_term::args::Args;
use aq_term::memory::Memory;
use aq_term::term::Term;
use kernel_ir::kernel_goal::KernelGoal;
use std::alloc::Global;

/// The variables of a term from left to right, each as often as it occurs.
///
/// The call goes as deep in the stack as the term is deep.
pub fn term_variables(alloc: Global, term: &Term) -> Result<Vec<u32>, Memory>
    ensures { IfOk result (λ found. found.items ≡ variables (plain term.now)) }
{
    let mut found = Vec::new(alloc);
    note(term, &mut found)?;
    Ok(found)
}

/// The variables of terms from left to right, each as often as it occurs.
pub fn variables_of_all(alloc: Global, terms: &[Term]) -> Result<Vec<u32>, Memory>
    ensures { IfOk result (λ found. found.items ≡ variables_of_all (plains (map plain terms.now))) }
{
    let mut found = Vec::new(alloc);
    note_terms(terms, &mut found)?;
    Ok(found)
}

/// The variables of a goal from left to right, each as often as it occurs.
pub fn goal_variables(alloc: Global, goal: &KernelGoal) -> Result<Vec<u32>, Memory>
    ensures { IfOk result (λ found. found.items ≡ prepared.goal_variables goal.now) }
{
    let mut found = Vec::new(alloc);
    note_goal(goal, &mut found)?;
    Ok(found)
}

/// Puts the variables of a goal at the end of the list.
pub fn note_goal(goal: &KernelGoal, found: &mut Vec<u32>) -> Result<(), Memory>
    ensures { OnOk result (found.new.items ≡ found.old.items ++ prepared.goal_variables goal.now) }
{
    match goal {
        KernelGoal::Unify(variable, term) => {
            found.push(*variable)?;
            note(term, found)
        }
        KernelGoal::Call(_, arguments)
        | KernelGoal::Undefined(_, arguments)
        | KernelGoal::Builtin(_, arguments) => note_terms(arguments.as_slice(), found),
        KernelGoal::Catch(_, arguments, _, others) => {
            note_terms(arguments.as_slice(), found)?;
            note_terms(others.as_slice(), found)
        }
        KernelGoal::CutTo(variable) => {
            found.push(*variable)?;
            Ok(())
        }
        KernelGoal::Throw(term) => note(term, found),
        KernelGoal::Cut | KernelGoal::Fail => Ok(()),
    }
}

fn note_terms(terms: &[Term], found: &mut Vec<u32>) -> Result<(), Memory>
    ensures { OnOk result (found.new.items ≡ found.old.items ++ variables_of_all (plains (map plain terms.now))) }
{
    for term in terms {
        note(term, found)?;
    }
    Ok(())
}

#[cycle(note)]
fn note(term: &Term, found: &mut Vec<u32>) -> Result<(), Memory>
    ensures { OnOk result (found.new.items ≡ found.old.items ++ variables (plain term.now)) }
{
    match term {
        Term::Var(number) => {
            found.push(*number)?;
            Ok(())
        }
        Term::Compound(_, arguments) => note_arguments(arguments, found),
        Term::Int(_) | Term::Atom(_) => Ok(()),
    }
}

#[cycle(note)]
fn note_arguments(arguments: &Args, found: &mut Vec<u32>) -> Result<(), Memory>
    ensures { OnOk result (found.new.items ≡ found.old.items ++ variables_of_all (plains arguments.now)) }
{
    for argument in arguments.as_slice() {
        note(argument, found)?;
    }
    Ok(())
}
