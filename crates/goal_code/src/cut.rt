ghost use Rattle.std.specs.Prelude.{◌≡◌, ◌++◌, IfOk, OnOk};
ghost use Rattle.flow_equations.specs.declared.progress.Progress.TheVariants as progress;
ghost use Rattle.goal_code.specs.GoalLines.{cut_lines};
ghost use Rattle.unify_special.specs.Steps.{moves_of, steps_of};

use crate::writer::Writer;
use aq_term::memory::Memory;
use bam_code::line::Line;
use flow_equations::progress::Progress;
use unify_special::operand::source;
use unify_special::place::Place;

impl Writer<'_> {
    /// Writes a cut to the number of choices that stands there.
    pub fn cut(&mut self, place: Place) -> Result<Progress, Memory>
        ensures lines { OnOk result (self.new.draft.lines ≡ self.old.draft.lines ++ cut_lines place) }
        ensures steps { steps_of self.new.draft.lines ≡ steps_of self.old.draft.lines }
        ensures moves { moves_of self.new.draft.lines ≡ moves_of self.old.draft.lines }
        ensures goes_on { IfOk result (λ next. next ≡ progress.GoesOn) }
    {
        if let Some(choices) = source(place) {
            self.line(Line::Cut(choices))?;
        }
        Ok(Progress::GoesOn)
    }
}
