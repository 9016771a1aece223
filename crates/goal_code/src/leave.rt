ghost use Rattle.std.specs.Prelude.{◌≡◌, ◌≤◌, ◌<◌, IsTrue, OnOk};
ghost use Rattle.goal_code.specs.GoalLines.{is_call};
ghost use Rattle.goal_code.specs.StepCounts.{choices_of, ends_of};
ghost use Rattle.unify_special.specs.Steps.{moves_of, steps_of};

use crate::prepared::Prepared;
use crate::writer::Writer;
use aq_term::memory::Memory;
use bam_code::line::Line;
use bam_code::source::Source;
use flow_equations::occurrences::note_goal;
use flow_equations::transfer::take;
use kernel_ir::kernel_goal::KernelGoal;
use unify_special::place::Place;

impl Writer<'_> {
    /// Writes a call that gives the procedure up, and before it the goals that fill the holes of results: a variable that such a goal
    /// shares with the call stands in a hole that the callee fills.
    pub fn leave(
        &mut self,
        clause: &Prepared,
        number: usize,
        goal: &KernelGoal,
    ) -> Result<(), Memory>
        ensures choices { choices_of self.new.draft.lines ≡ choices_of self.old.draft.lines }
        ensures ends { ends_of self.old.draft.lines ≤ ends_of self.new.draft.lines }
        ensures ended { IsTrue (is_call goal.now)
            → OnOk result (ends_of self.old.draft.lines < ends_of self.new.draft.lines) }
    {
        let KernelGoal::Call(name, arguments) = goal else {
            return Ok(());
        };
        let Some(callee) = self.facts.find(name) else {
            return self.line(Line::Fail);
        };
        self.make_passed(goal, arguments.as_slice(), callee)?;
        self.unbox(clause, number)?;
        let _goes_on = take(self.alloc, goal, &mut self.picture.facts, self.facts)?;
        self.fill_results(clause)?;
        let operands = self.operands(*name, arguments.as_slice(), callee)?;
        self.pass(operands.as_slice())?;
        self.give_up_frame()?;
        self.line(Line::Exec(*name))
    }

    /// Brings each boxed variable of the goal of this number and the later ones to a temporary register, since that is not accepted any
    /// more beside a hole.
    fn unbox(&mut self, clause: &Prepared, from: usize) -> Result<(), Memory>
        ensures steps { steps_of self.new.draft.lines ≡ steps_of self.old.draft.lines }
        ensures moves { moves_of self.new.draft.lines ≡ moves_of self.old.draft.lines }
    {
        let mut variables = Vec::new(self.alloc);
        for goal in clause.goals.as_slice().get(from..).unwrap_or(&[]) {
            note_goal(goal, &mut variables)?;
        }
        for variable in variables.as_slice() {
            self.unbox_variable(*variable)?;
        }
        Ok(())
    }

    fn unbox_variable(&mut self, variable: u32) -> Result<(), Memory>
        ensures steps { steps_of self.new.draft.lines ≡ steps_of self.old.draft.lines }
        ensures moves { moves_of self.new.draft.lines ≡ moves_of self.old.draft.lines }
    {
        let Place::Boxed(slot) = self.picture.places.get(variable) else {
            return Ok(());
        };
        let register = self.draft.take_register();
        self.line(Line::Deref {
            register,
            from: Source::Slot(slot),
        })?;
        self.picture.places.set(variable, Place::Register(register));
        Ok(())
    }
}
