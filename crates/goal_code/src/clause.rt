ghost use Rattle.std.specs.Prelude.{◌≡◌, ◌≤◌, ◌<◌, ◌+◌, ◌++◌, ◌∷◌, [], IsTrue, OnOk};
ghost use Rattle.std.specs.List.{list_all};
ghost use Rattle.goal_code.specs.GoalLines.{is_plain, most_moves_of};
ghost use Rattle.goal_code.specs.StepCounts.{choices_of, ends_of};
ghost use Rattle.unify_special.specs.Steps.{moves_of, steps_of};
ghost use Rattle.unify_special.specs.Steps as step;

use crate::prepared::Prepared;
use crate::slots::slots_of;
use crate::writer::Writer;
use aq_term::memory::Memory;
use bam_code::line::Line;
use flow_equations::occurrences::goal_variables;
use flow_equations::progress::Progress;
use kernel_ir::kernel_clause::KernelClause;
use kernel_ir::kernel_goal::KernelGoal;

/// Where lines go on that have tested an argument as a clause does.
#[derive(Clone, Copy)]
pub struct Tested {
    pub argument: u8,
    pub label: u32,
}

impl Writer<'_> {
    /// Writes a clause, from the entry of the procedure on, and behind its first test the label for those that have made it, where
    /// there are such. A catch is the only goal of its clause.
    pub fn clause(&mut self, clause: &KernelClause, tested: Option<Tested>) -> Result<(), Memory>
        ensures plain { IsTrue (list_all is_plain clause.now.goals)
            → OnOk result (steps_of self.new.draft.lines ≡ steps_of self.old.draft.lines ++ step.returned ∷ []) }
        ensures choices { choices_of self.new.draft.lines ≡ choices_of self.old.draft.lines }
        ensures ends { ends_of self.old.draft.lines ≤ ends_of self.new.draft.lines }
        ensures ended { OnOk result (ends_of self.old.draft.lines < ends_of self.new.draft.lines) }
    {
        if let [KernelGoal::Catch(guarded, arguments, handler, others)] = clause.goals.as_slice() {
            self.enter(clause.variables)?;
            let variables = goal_variables(self.alloc, &clause.goals.as_slice()[0])?;
            return self.catch(
                variables.as_slice(),
                *guarded,
                arguments.as_slice(),
                *handler,
                others.as_slice(),
            );
        }
        let prepared = Prepared::of(self.alloc, clause, &self.own.call, self.facts)?;
        self.enter(prepared.variables)?;
        self.begin(&prepared)?;
        self.place_tested(&prepared, tested)?;
        self.goals(&prepared)
    }

    /// Has the label for those that have tested an argument written behind the clause's own test, where that is the first thing done;
    /// else they test it again, and go on here.
    fn place_tested(&mut self, clause: &Prepared, tested: Option<Tested>) -> Result<(), Memory>
        ensures steps { steps_of self.new.draft.lines ≡ steps_of self.old.draft.lines }
        ensures moves { moves_of self.new.draft.lines ≡ moves_of self.old.draft.lines }
    {
        let Some(tested) = tested else {
            return Ok(());
        };
        if clause.begins_with_test(self.alloc, tested.argument)? {
            self.draft.tested = Some(tested.label);
            return Ok(());
        }
        self.label(tested.label)
    }

    /// Forgets the arguments that no goal has.
    fn begin(&mut self, clause: &Prepared) -> Result<(), Memory>
        ensures { self.new.draft.lines ≡ self.old.draft.lines }
    {
        let mut head = Vec::with_capacity(self.alloc, usize::from(self.width()))?;
        for number in 0..u32::from(self.width()) {
            head.push(number)?;
        }
        self.forget(clause, head.as_slice(), 0)
    }

    /// Writes the goals, up to one behind which nothing is done, and then the return.
    fn goals(&mut self, clause: &Prepared) -> Result<(), Memory>
        ensures plain { IsTrue (list_all is_plain clause.now.goals)
            → OnOk result (steps_of self.new.draft.lines ≡ steps_of self.old.draft.lines ++ step.returned ∷ []) }
        ensures moves { IsTrue (list_all is_plain clause.now.goals)
            → moves_of self.new.draft.lines ≤ moves_of self.old.draft.lines + most_moves_of clause.now.goals }
        ensures choices { choices_of self.new.draft.lines ≡ choices_of self.old.draft.lines }
        ensures ends { ends_of self.old.draft.lines ≤ ends_of self.new.draft.lines }
        ensures ended { OnOk result (ends_of self.old.draft.lines < ends_of self.new.draft.lines) }
    {
        for (number, goal) in clause.goals.as_slice().iter().enumerate() {
            if clause.leaves_by(number, goal) {
                return self.leave(clause, number, goal);
            }
            match self.goal(clause, number, goal)? {
                Progress::Ends => return Ok(()),
                Progress::GoesOn => {
                    let variables = goal_variables(self.alloc, goal)?;
                    self.forget(clause, variables.as_slice(), number.saturating_add(1))?;
                    self.draft.label_tested(self.signature, &self.picture)?;
                }
            }
        }
        self.give_up_frame()?;
        self.line(Line::Return)
    }

    /// Makes the frame of the clause where it has none yet.
    pub fn take_frame(&mut self, clause: &Prepared) -> Result<(), Memory>
        ensures steps { steps_of self.new.draft.lines ≡ steps_of self.old.draft.lines }
        ensures moves { moves_of self.new.draft.lines ≡ moves_of self.old.draft.lines }
    {
        if self.picture.frame.is_some() {
            return Ok(());
        }
        let slots = slots_of(self.alloc, clause, u32::from(self.width()))?;
        self.line(Line::Allocate(slots))?;
        self.picture.frame = Some(slots);
        Ok(())
    }

    /// Gives the frame up where there is one.
    pub fn give_up_frame(&mut self) -> Result<(), Memory>
        ensures steps { steps_of self.new.draft.lines ≡ steps_of self.old.draft.lines }
        ensures moves { moves_of self.new.draft.lines ≡ moves_of self.old.draft.lines }
    {
        match self.picture.frame {
            Some(_) => self.line(Line::Deallocate),
            None => Ok(()),
        }
    }
}
