ghost use Rattle.std.specs.Prelude.{IsTrue, IfOk, OnOk};
ghost use Rattle.std.specs.List.{list_all};
ghost use Rattle.goal_code.specs.GoalLines.{is_call, is_plain};

use crate::leaving::{Leaving, counts, leaving_of};
use crate::liveness::Liveness;
use crate::twins::Twins;
use aq_term::memory::Memory;
use aq_term::term::Term;
use flow_equations::deferred::LoneVariables;
use flow_equations::fact_list::FactList;
use flow_equations::facts::Facts;
use flow_equations::occurrences::term_variables;
use kernel_ir::kernel_clause::KernelClause;
use kernel_ir::kernel_goal::KernelGoal;
use kernel_ir::kernel_goals::KernelGoals;
use std::alloc::Global;

/// A clause of which code is made: its goals in the order in which they are taken, with a twin for each head variable that is a
/// result and has no deferred goal of its own.
#[derive(Debug, Drop)]
pub struct Prepared {
    pub goals: KernelGoals,
    /// The number of the first deferred goal. Each of those fills the hole of a result.
    pub deferred: usize,
    /// Each variable, twins among them, is below this number.
    pub variables: u32,
    /// How the last goal before the deferred ones is done.
    pub leaving: Leaving,
    pub liveness: Liveness,
}

impl Prepared {
    /// The clause under these facts of its predicate's calls.
    pub fn of(
        alloc: Global,
        clause: &KernelClause,
        call: &FactList,
        facts: &Facts,
    ) -> Result<Prepared, Memory>
        ensures { IfOk result (λ made. IsTrue (list_all is_plain clause.now.goals)
            → IsTrue (list_all is_plain made.goals)) }
    {
        let lone = LoneVariables::of(alloc, clause)?;
        let twins = Twins::of(alloc, clause, call, &lone)?;
        let mut goals = KernelGoals::new(alloc);
        put_first(clause.goals.as_slice(), call, &lone, &twins, &mut goals)?;
        let deferred = goals.len();
        put_deferred(clause.goals.as_slice(), call, &lone, &twins, &mut goals)?;
        twins.join(&mut goals)?;
        let variables = twins.variables;
        Ok(Prepared {
            deferred,
            variables,
            leaving: leaving_of(alloc, goals.as_slice(), deferred, variables, facts)?,
            liveness: Liveness::of(alloc, goals.as_slice(), variables)?,
            goals,
        })
    }

    /// Whether the goal of this number is a call that gives the procedure up.
    pub fn leaves_by(&self, number: usize, goal: &KernelGoal) -> bool
        ensures { IsTrue result → IsTrue (is_call goal.now) }
    {
        matches!(goal, KernelGoal::Call(_, _))
            && self.leaving == Leaving::Executes
            && number.saturating_add(1) == self.deferred
    }

    /// The goal of this number returns to the clause: it is a call that does not give the procedure up.
    pub fn returns_from(&self, number: usize, goal: &KernelGoal) -> bool {
        matches!(goal, KernelGoal::Call(_, _)) && !self.leaves_by(number, goal)
    }

    /// Whether the first thing done is a test of this argument's tag and value.
    pub fn begins_with_test(&self, alloc: Global, argument: u8) -> Result<bool, Memory> {
        match self.goals.as_slice() {
            [KernelGoal::Unify(variable, term), ..] if *variable == u32::from(argument) => {
                is_tested_first(alloc, term, self.variables)
            }
            _ => Ok(false),
        }
    }

    /// The goals that fill the holes of results.
    pub fn deferred_goals(&self) -> &[KernelGoal] {
        self.goals.as_slice().get(self.deferred..).unwrap_or(&[])
    }
}

/// Whether a term that is unified with an argument is compared by its tag and value before all else. A compound without variables is
/// unified as a whole, and for a variable that occurs twice a cell is made first.
fn is_tested_first(alloc: Global, term: &Term, variables: u32) -> Result<bool, Memory> {
    match term {
        Term::Var(_) => Ok(false),
        Term::Int(_) | Term::Atom(_) => Ok(true),
        Term::Compound(_, _) => {
            let occurrences = term_variables(alloc, term)?;
            let counts = counts(alloc, &occurrences, variables)?;
            Ok(!occurrences.is_empty() && counts.as_slice().iter().all(|count| *count < 2))
        }
    }
}

/// Puts the goals that are not deferred at the end.
fn put_first(
    goals: &[KernelGoal],
    call: &FactList,
    lone: &LoneVariables,
    twins: &Twins,
    taken: &mut KernelGoals,
) -> Result<(), Memory>
    ensures { OnOk result (IsTrue (list_all is_plain goals.now) → IsTrue (list_all is_plain taken.old)
        → IsTrue (list_all is_plain taken.new)) }
{
    for goal in goals {
        if !lone.defer(goal, call) {
            taken.push(twins.goal(goal)?)?;
        }
    }
    Ok(())
}

/// Puts the deferred goals at the end.
fn put_deferred(
    goals: &[KernelGoal],
    call: &FactList,
    lone: &LoneVariables,
    twins: &Twins,
    taken: &mut KernelGoals,
) -> Result<(), Memory>
    ensures { OnOk result (IsTrue (list_all is_plain goals.now) → IsTrue (list_all is_plain taken.old)
        → IsTrue (list_all is_plain taken.new)) }
{
    for goal in goals {
        if lone.defer(goal, call) {
            taken.push(twins.goal(goal)?)?;
        }
    }
    Ok(())
}
