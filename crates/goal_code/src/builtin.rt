ghost use Rattle.std.specs.Prelude.{◌≡◌, ◌≤◌, ◌+◌, ◌*◌, IfOk, length};
ghost use Rattle.flow_equations.specs.declared.progress.Progress.TheVariants as progress;
ghost use Rattle.goal_code.specs.GoalLines.{most_moves};
ghost use Rattle.unify_special.specs.Steps.{moves_of, steps_of};

use crate::arguments::argument_register;
use crate::prepared::Prepared;
use crate::writer::Writer;
use aq_term::builtin::Builtin;
use aq_term::memory::Memory;
use aq_term::term::Term;
use bam_code::comparison::Comparison;
use bam_code::line::Line;
use bam_code::sameness::Sameness;
use bam_code::source::Source;
use flow_equations::progress::Progress;
use flow_equations::transfer::take;
use kernel_ir::kernel_goal::KernelGoal;
use type_lattice::fact::Fact;
use unify_special::operand::move_to;
use unify_special::place::Place;

impl Writer<'_> {
    /// Writes a built-in.
    pub fn builtin(
        &mut self,
        clause: &Prepared,
        number: usize,
        goal: &KernelGoal,
    ) -> Result<Progress, Memory>
        ensures steps { steps_of self.new.draft.lines ≡ steps_of self.old.draft.lines }
        ensures moves { moves_of self.new.draft.lines ≤ moves_of self.old.draft.lines + most_moves goal.now }
        ensures goes_on { IfOk result (λ next. next ≡ progress.GoesOn) }
    {
        let KernelGoal::Builtin(builtin, arguments) = goal else {
            return Ok(Progress::GoesOn);
        };
        let arguments = arguments.as_slice();
        let made = self.made_variable(*builtin, arguments);
        self.make_ready(goal)?;
        match *builtin {
            Builtin::Is => self.is(made, arguments)?,
            Builtin::NumberEqual => self.compare_numbers(Comparison::Equal, arguments)?,
            Builtin::NumberNotEqual => self.compare_numbers(Comparison::NotEqual, arguments)?,
            Builtin::Less => self.compare_numbers(Comparison::Less, arguments)?,
            Builtin::AtMost => self.compare_numbers(Comparison::AtMost, arguments)?,
            Builtin::Greater => self.compare_numbers(Comparison::Greater, arguments)?,
            Builtin::AtLeast => self.compare_numbers(Comparison::AtLeast, arguments)?,
            Builtin::Identical => self.compare_terms(Sameness::Same, arguments)?,
            Builtin::NotIdentical => self.compare_terms(Sameness::Different, arguments)?,
            other => self.do_builtin(clause, number, other, arguments)?,
        }
        let _goes_on = take(self.alloc, goal, &mut self.picture.facts, self.facts)?;
        Ok(Progress::GoesOn)
    }

    /// The X of `X is E` where it is out.
    fn made_variable(&self, builtin: Builtin, arguments: &[Term]) -> Option<u32> {
        match (builtin, arguments) {
            (Builtin::Is, [Term::Var(variable), ..])
                if self.picture.facts.fact(*variable) == Fact::Out => { Some(*variable) }
            _ => None,
        }
    }

    /// Writes a comparison of terms as they stand.
    fn compare_terms(&mut self, sameness: Sameness, arguments: &[Term]) -> Result<(), Memory>
        ensures steps { steps_of self.new.draft.lines ≡ steps_of self.old.draft.lines }
        ensures moves { moves_of self.new.draft.lines ≡ moves_of self.old.draft.lines }
    {
        let [left, right] = arguments else {
            return Ok(());
        };
        match (self.argument_source(left), self.argument_source(right)) {
            (Some(left), Some(right)) => self.line(Line::Same {
                sameness,
                left,
                right,
            }),
            _ => Ok(()),
        }
    }

    /// Writes a built-in that takes its arguments from the registers from 0 on.
    fn do_builtin(
        &mut self,
        clause: &Prepared,
        number: usize,
        builtin: Builtin,
        arguments: &[Term],
    ) -> Result<(), Memory>
        ensures steps { steps_of self.new.draft.lines ≡ steps_of self.old.draft.lines }
        ensures moves { moves_of self.new.draft.lines ≤ moves_of self.old.draft.lines + 3 * length arguments.now }
    {
        for (place, argument) in arguments.iter().enumerate() {
            self.give(clause, number, place, argument, arguments)?;
        }
        self.line(Line::Builtin(builtin))
    }

    /// Puts an argument into the register of its place. What stands there moves to a new register for good where it is wanted later, or
    /// is an argument still to come.
    fn give(
        &mut self,
        clause: &Prepared,
        number: usize,
        place: usize,
        argument: &Term,
        arguments: &[Term],
    ) -> Result<(), Memory>
        ensures steps { steps_of self.new.draft.lines ≡ steps_of self.old.draft.lines }
        ensures moves { moves_of self.new.draft.lines ≤ moves_of self.old.draft.lines + 3 }
    {
        let register = argument_register(place);
        let Some(from) = self.argument_source(argument) else {
            return Ok(());
        };
        let later = arguments.get(place.saturating_add(1)..).unwrap_or(&[]);
        self.make_room(clause, number.saturating_add(1), register, later)?;
        if from == Source::Register(register) {
            return Ok(());
        }
        self.line(move_to(register, from))
    }

    /// Moves the variable, the hole or the depth that stands in this register to a new one, where a later argument or goal has it.
    fn make_room(
        &mut self,
        clause: &Prepared,
        behind: usize,
        register: u16,
        later: &[Term],
    ) -> Result<(), Memory>
        ensures steps { steps_of self.new.draft.lines ≡ steps_of self.old.draft.lines }
        ensures moves { moves_of self.new.draft.lines ≤ moves_of self.old.draft.lines + 2 }
    {
        let variable = u32::from(register);
        if self.picture.places.get(variable) == Place::Register(register)
            && (clause.liveness.wants(variable, behind) || has_variable(later, variable))
        {
            let place = self.moved_up(register)?;
            self.picture.places.set(variable, place);
        }
        if self.picture.depth == Place::Register(register) {
            self.picture.depth = self.moved_up(register)?;
        }
        Ok(())
    }

    /// Moves a register to a new one.
    fn moved_up(&mut self, register: u16) -> Result<Place, Memory>
        ensures steps { steps_of self.new.draft.lines ≡ steps_of self.old.draft.lines }
        ensures moves { moves_of self.new.draft.lines ≤ moves_of self.old.draft.lines + 1 }
    {
        let new = self.draft.take_register();
        self.line(move_to(new, Source::Register(register)))?;
        Ok(Place::Register(new))
    }
}

/// Whether a variable is one of the arguments.
fn has_variable(arguments: &[Term], variable: u32) -> bool {
    arguments.iter().any(|argument| matches!(argument, Term::Var(number) if *number == variable))
}
