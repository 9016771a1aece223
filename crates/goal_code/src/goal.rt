ghost use Rattle.std.specs.Prelude.{◌≡◌, ◌≤◌, ◌<◌, ◌+◌, ◌++◌, ◌∷◌, [], IsTrue, IfOk, OnOk};
ghost use Rattle.bam_code.specs.declared.line.Line.TheVariants as line;
ghost use Rattle.flow_equations.specs.declared.progress.Progress.TheVariants as progress;
ghost use Rattle.goal_code.specs.GoalLines.{WritesFor, is_plain, most_moves};
ghost use Rattle.flow_equations.specs.Env.{fact_of};
ghost use Rattle.flow_equations.specs.Prepared.{prepared};
ghost use Rattle.goal_code.specs.Passed.{KeepsOut, cell_lines};
ghost use Rattle.unify_special.specs.Places.{place_of};
ghost use Rattle.goal_code.specs.StepCounts.{choices_of, ends_of};
ghost use Rattle.unify_special.specs.Steps.{moves_of, steps_of};

use crate::prepared::Prepared;
use crate::writer::Writer;
use aq_term::memory::Memory;
use aq_term::term::Term;
use bam_code::line::Line;
use bam_code::source::Source;
use flow_equations::occurrences::goal_variables;
use flow_equations::prepare::prepare;
use flow_equations::progress::Progress;
use kernel_ir::kernel_goal::KernelGoal;
use type_lattice::fact::Fact;
use unify_special::operand::operand;
use unify_special::place::Place;
use unify_special::unify_code::unify_code;
use unify_special::wanted::Wanted;

impl Writer<'_> {
    /// Writes a goal, the one of this number in the order in which they are taken, and makes the picture that behind it.
    pub fn goal(
        &mut self,
        clause: &Prepared,
        number: usize,
        goal: &KernelGoal,
    ) -> Result<Progress, Memory>
        ensures exact { OnOk result (WritesFor self.old.picture goal.now self.old.draft.lines self.new.draft.lines) }
        ensures plain { IsTrue (is_plain goal.now) → steps_of self.new.draft.lines ≡ steps_of self.old.draft.lines }
        ensures goes_on { IsTrue (is_plain goal.now) → IfOk result (λ next. next ≡ progress.GoesOn) }
        ensures moves { IsTrue (is_plain goal.now)
            → moves_of self.new.draft.lines ≤ moves_of self.old.draft.lines + most_moves goal.now }
        ensures choices { choices_of self.new.draft.lines ≡ choices_of self.old.draft.lines }
        ensures ends { ends_of self.old.draft.lines ≤ ends_of self.new.draft.lines }
        ensures ended { IfOk result (λ next. next ≡ progress.Ends
            → ends_of self.old.draft.lines < ends_of self.new.draft.lines) }
    {
        match goal {
            KernelGoal::Unify(variable, term) => {
                let wanted = clause.liveness.wanted(number.saturating_add(1));
                self.unify(*variable, term, wanted)
            }
            KernelGoal::Call(_, _) => self.call(clause, number, goal),
            KernelGoal::Undefined(name, arguments) => self.undefined(*name, arguments.len()),
            KernelGoal::Builtin(_, _) => self.builtin(clause, number, goal),
            KernelGoal::Cut => {
                let depth = self.picture.depth;
                self.cut(depth)
            }
            KernelGoal::CutTo(variable) => {
                let barrier = self.picture.places.get(*variable);
                self.cut(barrier)
            }
            KernelGoal::Fail => self.fail(),
            KernelGoal::Throw(ball) => self.throw(ball),
            // a catch has no goal beside it
            KernelGoal::Catch(_, _, _, _) => Ok(Progress::GoesOn),
        }
    }

    fn unify(&mut self, variable: u32, term: &Term, wanted: Wanted<'_>) -> Result<Progress, Memory>
        ensures steps { steps_of self.new.draft.lines ≡ steps_of self.old.draft.lines }
        ensures moves { moves_of self.new.draft.lines ≤ moves_of self.old.draft.lines + 2 }
        ensures goes_on { IfOk result (λ next. next ≡ progress.GoesOn) }
    {
        unify_code(
            self.alloc,
            variable,
            term,
            wanted,
            self.signature,
            &mut self.picture,
            &mut self.pool,
            &mut self.draft,
        )?;
        Ok(Progress::GoesOn)
    }

    /// Writes the goals that fill the holes of results.
    pub fn fill_results(&mut self, clause: &Prepared) -> Result<(), Memory>
        ensures { steps_of self.new.draft.lines ≡ steps_of self.old.draft.lines }
    {
        for (place, goal) in clause.deferred_goals().iter().enumerate() {
            if let KernelGoal::Unify(variable, term) = goal {
                let number = clause.deferred.saturating_add(place);
                let wanted = clause.liveness.wanted(number.saturating_add(1));
                let _goes_on = self.unify(*variable, term, wanted)?;
            }
        }
        Ok(())
    }

    /// Writes a failing, behind which nothing of the clause is done.
    pub fn fail(&mut self) -> Result<Progress, Memory>
        ensures lines { OnOk result (self.new.draft.lines ≡ self.old.draft.lines ++ line.Fail ∷ []) }
        ensures choices { choices_of self.new.draft.lines ≡ choices_of self.old.draft.lines }
        ensures ends { ends_of self.old.draft.lines ≤ ends_of self.new.draft.lines }
        ensures ended { OnOk result (ends_of self.old.draft.lines < ends_of self.new.draft.lines) }
        ensures stops { IfOk result (λ next. next ≡ progress.Ends) }
    {
        self.line(Line::Fail)?;
        Ok(Progress::Ends)
    }

    /// Makes the facts ready for a goal. A variable that was out, and must stand in a cell before the goal is taken, gets one.
    pub fn make_ready(&mut self, goal: &KernelGoal) -> Result<(), Memory>
        ensures steps { steps_of self.new.draft.lines ≡ steps_of self.old.draft.lines }
        ensures moves { moves_of self.new.draft.lines ≡ moves_of self.old.draft.lines }
        ensures facts { OnOk result (self.new.picture.facts ≡ prepared self.old.picture.facts goal.now) }
        ensures stays { OnOk result (KeepsOut self.new.picture.facts self.old.picture.places self.new.picture.places) }
    {
        prepare(self.alloc, goal, &mut self.picture.facts)?;
        let variables = goal_variables(self.alloc, goal)?;
        self.make_cells(variables.as_slice())
    }

    /// Makes an unbound cell for each variable that stands nowhere and is out no more.
    pub fn make_cells(&mut self, variables: &[u32]) -> Result<(), Memory>
        ensures steps { steps_of self.new.draft.lines ≡ steps_of self.old.draft.lines }
        ensures moves { moves_of self.new.draft.lines ≡ moves_of self.old.draft.lines }
        ensures facts { self.new.picture.facts ≡ self.old.picture.facts }
        ensures stays { KeepsOut self.old.picture.facts self.old.picture.places self.new.picture.places }
    {
        for variable in variables {
            self.make_cell(*variable)?;
        }
        Ok(())
    }

    fn make_cell(&mut self, variable: u32) -> Result<(), Memory>
        ensures steps { steps_of self.new.draft.lines ≡ steps_of self.old.draft.lines }
        ensures moves { moves_of self.new.draft.lines ≡ moves_of self.old.draft.lines }
        ensures lines { OnOk result (self.new.draft.lines ≡ self.old.draft.lines ++ cell_lines
            (fact_of self.old.picture.facts variable) (place_of self.old.picture.places variable) self.old.draft.register) }
        ensures facts { self.new.picture.facts ≡ self.old.picture.facts }
        ensures stays { KeepsOut self.old.picture.facts self.old.picture.places self.new.picture.places }
    {
        match (
            self.picture.facts.fact(variable),
            self.picture.places.get(variable),
        ) {
            (Fact::Out, _) => Ok(()),
            (_, Place::Nowhere) => {
                let register = self.draft.take_register();
                self.line(Line::Fresh { register })?;
                self.picture.places.set(variable, Place::Register(register));
                Ok(())
            }
            _ => Ok(()),
        }
    }

    /// The operand of an argument of a call or a built-in, which is a variable or a constant.
    pub fn argument_source(&self, argument: &Term) -> Option<Source> {
        match argument {
            Term::Var(variable) => Some(operand(&self.picture, *variable)),
            Term::Int(value) => Some(Source::Int(*value)),
            Term::Atom(name) => Some(Source::Atom(*name)),
            Term::Compound(_, _) => None,
        }
    }
}
