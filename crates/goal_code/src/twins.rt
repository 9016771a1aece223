ghost use Rattle.std.specs.Prelude.{◌≡◌, IsTrue, IfOk, OnOk};
ghost use Rattle.std.specs.List.{list_all};
ghost use Rattle.goal_code.specs.GoalLines.{is_plain};

use aq_term::args::Args;
use aq_term::args0::Args0;
use aq_term::memory::Memory;
use aq_term::term::Term;
use flow_equations::deferred::LoneVariables;
use flow_equations::fact_list::FactList;
use kernel_ir::kernel_clause::KernelClause;
use kernel_ir::kernel_goal::KernelGoal;
use kernel_ir::kernel_goals::KernelGoals;
use std::alloc::Global;
use type_lattice::fact::Fact;

/// The variables that stand in the goals of a clause for head variables that are results, where those have no deferred goal of
/// their own. Such a variable is its head variable's twin: all goals have it instead, and at the end the two are unified, so that
/// the hole of each result is filled by one goal, at the end.
#[derive(Debug, Drop)]
pub struct Twins {
    alloc: Global,
    /// For each argument that has a fact the number of its twin, or its own where it has none.
    numbers: Vec<u32>,
    /// How many variables the clause has, its twins among them.
    pub variables: u32,
}

impl Twins {
    /// Those of a clause under these facts of the call.
    pub fn of(
        alloc: Global,
        clause: &KernelClause,
        call: &FactList,
        lone: &LoneVariables,
    ) -> Result<Twins, Memory> {
        let deferred = deferred_variables(alloc, clause.goals.as_slice(), call, lone)?;
        let mut numbers = Vec::with_capacity(alloc, call.len())?;
        let mut variables = clause.variables;
        for (fact, is_deferred) in call.as_slice().iter().zip(deferred.as_slice()) {
            if *fact == Fact::Out && !*is_deferred {
                numbers.push(variables)?;
                variables = variables.saturating_add(1);
            } else {
                numbers.push(u32::try_from(numbers.len()).unwrap_or(u32::MAX))?;
            }
        }
        Ok(Twins {
            alloc,
            numbers,
            variables,
        })
    }

    /// The variable that stands for a variable.
    pub fn number(&self, variable: u32) -> u32 {
        match self.numbers.get(variable as usize) {
            Some(number) => *number,
            None => variable,
        }
    }

    /// A goal with twins for their head variables.
    pub fn goal(&self, goal: &KernelGoal) -> Result<KernelGoal, Memory>
        ensures { IfOk result (λ made. is_plain made ≡ is_plain goal.now) }
    {
        Ok(match goal {
            KernelGoal::Unify(variable, term) => {
                KernelGoal::Unify(self.number(*variable), self.term(term)?)
            }
            KernelGoal::Call(name, arguments) => {
                KernelGoal::Call(*name, self.terms(arguments.as_slice())?)
            }
            KernelGoal::Undefined(name, arguments) => {
                KernelGoal::Undefined(*name, self.terms(arguments.as_slice())?)
            }
            KernelGoal::Builtin(builtin, arguments) => {
                KernelGoal::Builtin(*builtin, self.terms(arguments.as_slice())?)
            }
            KernelGoal::Cut => KernelGoal::Cut,
            KernelGoal::CutTo(variable) => KernelGoal::CutTo(self.number(*variable)),
            KernelGoal::Fail => KernelGoal::Fail,
            KernelGoal::Catch(guarded, arguments, handler, others) => KernelGoal::Catch(
                *guarded,
                self.terms(arguments.as_slice())?,
                *handler,
                self.terms(others.as_slice())?,
            ),
            KernelGoal::Throw(ball) => KernelGoal::Throw(self.term(ball)?),
        })
    }

    /// Puts the goals that unify head variables with their twins at the end.
    pub fn join(&self, goals: &mut KernelGoals) -> Result<(), Memory>
        ensures { OnOk result (IsTrue (list_all is_plain goals.old) → IsTrue (list_all is_plain goals.new)) }
    {
        for variable in 0..u32::try_from(self.numbers.len()).unwrap_or(u32::MAX) {
            let twin = self.number(variable);
            if twin != variable {
                goals.push(KernelGoal::Unify(variable, Term::Var(twin)))?;
            }
        }
        Ok(())
    }

    fn terms(&self, terms: &[Term]) -> Result<Args0, Memory> {
        let mut copies = Vec::with_capacity(self.alloc, terms.len())?;
        for term in terms {
            copies.push(self.term(term)?)?;
        }
        Ok(Args0::from_vec(copies))
    }

    #[cycle(with_twins)]
    fn term(&self, term: &Term) -> Result<Term, Memory> {
        Ok(match term {
            Term::Var(number) => Term::Var(self.number(*number)),
            Term::Int(value) => Term::Int(*value),
            Term::Atom(name) => Term::Atom(*name),
            Term::Compound(name, arguments) => Term::Compound(*name, self.arguments(arguments)?),
        })
    }

    #[cycle(with_twins)]
    fn arguments(&self, arguments: &Args) -> Result<Args, Memory> {
        let mut copies = Vec::with_capacity(self.alloc, arguments.len())?;
        for argument in arguments.as_slice() {
            copies.push(self.term(argument)?)?;
        }
        Ok(Args::from_vec(copies))
    }
}

/// Whether each argument that has a fact is the left side of a deferred goal.
fn deferred_variables(
    alloc: Global,
    goals: &[KernelGoal],
    call: &FactList,
    lone: &LoneVariables,
) -> Result<Vec<bool>, Memory> {
    let mut deferred = vec![in alloc; false; call.len()]?;
    for goal in goals {
        if lone.defer(goal, call) {
            note_deferred(&mut deferred, goal);
        }
    }
    Ok(deferred)
}

fn note_deferred(deferred: &mut Vec<bool>, goal: &KernelGoal) {
    if let KernelGoal::Unify(variable, _) = goal {
        if let Some(own) = deferred.get_mut(*variable as usize) {
            *own = true;
        }
    }
}
