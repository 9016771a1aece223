ghost use Rattle.std.specs.Prelude.{◌≡◌, ◌≤◌, ◌+◌, IfOk, OnOk, map};
ghost use Rattle.flow_equations.specs.Shape.{due_shape, shape_of};
ghost use Rattle.flow_analysis.specs.Work.{work_of};

use crate::callers::{Callers, ClausePlace};
use crate::rise::Rise;
use crate::worklist::Worklist;
use aq_term::entries::Entries;
use aq_term::entry::Entry;
use aq_term::memory::Memory;
use aq_term::proc_name::ProcName;
use flow_equations::call_facts::calls_of;
use flow_equations::entry_fact::entry_fact;
use flow_equations::env::first_env;
use flow_equations::fact_list::FactList;
use flow_equations::facts::Facts;
use flow_equations::prepare::prepare;
use flow_equations::progress::Progress;
use flow_equations::result_fact::result_facts;
use flow_equations::taken_order::taken_order;
use flow_equations::transfer::take;
use kernel_ir::kernel::Kernel;
use kernel_ir::kernel_clause::KernelClause;
use kernel_ir::kernel_goal::KernelGoal;
use kernel_ir::kernel_predicate::KernelPredicate;
use std::alloc::Global;
use type_lattice::fact::Fact;

/// The least facts of a well-formed kernel program for all queries that meet its entries. Each predicate has one fact of each argument
/// at its calls and at its successes, a barrier left out.
///
/// A clause is taken once its predicate is called, and again where the facts of its predicate's calls or of the successes of a
/// predicate that it calls have risen.
pub fn analyse(alloc: Global, kernel: &Kernel, entries: &Entries) -> Result<Facts, Memory>
    ensures { IfOk result (λ facts. map shape_of facts ≡ map due_shape kernel.now.predicates) }
{
    let facts = Facts::bottom(alloc, kernel)?;
    let callers = Callers::of(alloc, kernel, &facts)?;
    let mut analysis = Analysis {
        alloc,
        predicates: kernel.predicates.as_slice(),
        callers: &callers,
        work: Worklist::new(alloc, facts.len())?,
        facts,
    };
    for entry in entries.as_slice() {
        analysis.enter(entry)?;
    }
    analysis.run()?;
    Ok(analysis.into_facts())
}

/// An analysis that is under way.
#[derive(Drop)]
struct Analysis<'a> {
    alloc: Global,
    predicates: &'a [KernelPredicate],
    callers: &'a Callers,
    facts: Facts,
    work: Worklist,
}

impl Analysis<'_> {
    fn into_facts(self) -> Facts
        ensures { result ≡ self.entry.facts }
    {
        let Analysis {
            alloc: _,
            predicates: _,
            callers: _,
            facts,
            work: _,
        } = self;
        facts
    }

    /// Takes a query that meets an entry.
    fn enter(&mut self, entry: &Entry) -> Result<(), Memory>
        ensures shape { OnOk result (map shape_of self.new.facts ≡ map shape_of self.old.facts) }
    {
        let mut facts = FactList::new(self.alloc);
        for mode in entry.modes.as_slice() {
            facts.push(entry_fact(*mode))?;
        }
        let name = ProcName {
            name: entry.name,
            arity: entry.arity,
            part: 0,
            width: entry.arity,
        };
        self.call(&name, facts.as_slice())
    }

    /// Takes clauses until nothing has risen since they were taken.
    fn run(&mut self) -> Result<(), Memory>
        ensures shape { OnOk result (map shape_of self.new.facts ≡ map shape_of self.old.facts) }
    {
        while let Some(rise) = self.work.pop() {
            match rise {
                Rise::Call(place) => self.take_predicate(place)?,
                Rise::Success(place) => self.take_callers(place)?,
            }
        }
        Ok(())
    }

    /// Takes the clauses of the predicate at a place.
    fn take_predicate(&mut self, place: usize) -> Result<(), Memory>
        ensures shape { OnOk result (map shape_of self.new.facts ≡ map shape_of self.old.facts) }
        ensures less { OnOk result (work_of self.new.facts self.new.work ≤ work_of self.old.facts self.old.work) }
    {
        let Some(predicate) = self.predicates.get(place) else {
            return Ok(());
        };
        for clause in predicate.clauses.as_slice() {
            self.take_clause(place, predicate, clause)?;
        }
        Ok(())
    }

    /// Takes the clauses that call the predicate at a place, where they are called themselves.
    fn take_callers(&mut self, place: usize) -> Result<(), Memory>
        ensures shape { OnOk result (map shape_of self.new.facts ≡ map shape_of self.old.facts) }
        ensures less { OnOk result (work_of self.new.facts self.new.work ≤ work_of self.old.facts self.old.work) }
    {
        for caller in self.callers.of_predicate(place) {
            self.take_caller(*caller)?;
        }
        Ok(())
    }

    fn take_caller(&mut self, caller: ClausePlace) -> Result<(), Memory>
        ensures shape { OnOk result (map shape_of self.new.facts ≡ map shape_of self.old.facts) }
        ensures less { OnOk result (work_of self.new.facts self.new.work ≤ work_of self.old.facts self.old.work) }
    {
        let Some(predicate) = self.predicates.get(caller.predicate) else {
            return Ok(());
        };
        match predicate.clauses.as_slice().get(caller.clause) {
            Some(clause) => self.take_clause(caller.predicate, predicate, clause),
            None => Ok(()),
        }
    }

    /// Takes a clause of the predicate at a place, where that is called: its goals in their taken order, up to one behind which
    /// nothing is taken, and where there is none its end.
    fn take_clause(
        &mut self,
        place: usize,
        predicate: &KernelPredicate,
        clause: &KernelClause,
    ) -> Result<(), Memory>
        ensures shape { OnOk result (map shape_of self.new.facts ≡ map shape_of self.old.facts) }
        ensures less { OnOk result (work_of self.new.facts self.new.work ≤ work_of self.old.facts self.old.work) }
    {
        let Some(call) = self.call_of(place)? else {
            return Ok(());
        };
        let mut env = first_env(self.alloc, &call, predicate.barrier, clause.variables)?;
        let order = taken_order(self.alloc, clause, &call)?;
        match self.take_goals(clause.goals.as_slice(), order.as_slice(), &mut env)? {
            Progress::GoesOn => {
                let results = result_facts(self.alloc, &call, &env)?;
                self.succeed(place, results.as_slice())
            }
            Progress::Ends => Ok(()),
        }
    }

    /// The facts at the calls of the predicate at a place, or none where it is not called.
    fn call_of(&self, place: usize) -> Result<Option<FactList>, Memory> {
        match self.facts.as_slice().get(place) {
            Some(facts) if facts.reached => Ok(Some(facts.call.copy(self.alloc)?)),
            _ => Ok(None),
        }
    }

    /// Takes the goals of these numbers.
    fn take_goals(
        &mut self,
        goals: &[KernelGoal],
        order: &[usize],
        env: &mut FactList,
    ) -> Result<Progress, Memory>
        ensures shape { OnOk result (map shape_of self.new.facts ≡ map shape_of self.old.facts) }
        ensures less { OnOk result (work_of self.new.facts self.new.work ≤ work_of self.old.facts self.old.work) }
    {
        for number in order {
            if let Some(goal) = goals.get(*number) {
                if self.take_goal(goal, env)? == Progress::Ends {
                    return Ok(Progress::Ends);
                }
            }
        }
        Ok(Progress::GoesOn)
    }

    /// Takes a goal: what it calls is called with its arguments' facts, and then the facts behind it come.
    fn take_goal(&mut self, goal: &KernelGoal, env: &mut FactList) -> Result<Progress, Memory>
        ensures shape { OnOk result (map shape_of self.new.facts ≡ map shape_of self.old.facts) }
        ensures less { OnOk result (work_of self.new.facts self.new.work ≤ work_of self.old.facts self.old.work) }
    {
        prepare(self.alloc, goal, env)?;
        let calls = calls_of(self.alloc, goal, env)?;
        for call in calls.as_slice() {
            self.call(&call.name, call.facts.as_slice())?;
        }
        take(self.alloc, goal, env, &self.facts)
    }

    /// Notes a call of a predicate with arguments of these facts.
    fn call(&mut self, name: &ProcName, facts: &[Fact]) -> Result<(), Memory>
        ensures shape { OnOk result (map shape_of self.new.facts ≡ map shape_of self.old.facts) }
        ensures less { OnOk result (work_of self.new.facts self.new.work ≤ work_of self.old.facts self.old.work) }
    {
        let Some(place) = self.facts.place(name) else {
            return Ok(());
        };
        let is_new = self.facts.reach(place);
        let rose = self.facts.raise_call(place, facts);
        if is_new || rose {
            self.work.push(Rise::Call(place))?;
        }
        Ok(())
    }

    /// Notes that the predicate at a place succeeds with arguments of these facts.
    fn succeed(&mut self, place: usize, facts: &[Fact]) -> Result<(), Memory>
        ensures shape { OnOk result (map shape_of self.new.facts ≡ map shape_of self.old.facts) }
        ensures less { OnOk result (work_of self.new.facts self.new.work ≤ work_of self.old.facts self.old.work) }
    {
        if self.facts.raise_success(place, facts) {
            self.work.push(Rise::Success(place))?;
        }
        Ok(())
    }
}
