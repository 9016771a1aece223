ghost use Rattle.std.specs.Prelude.{◌≡◌, IfOk, true};
ghost use Rattle.bam_peephole.specs.Reached.{nothing_named, reached_lines};

use crate::flow::goes_on;
use crate::line_labels::any_label;
use aq_term::memory::Memory;
use bam_code::line::Line;
use bam_code::switch_target::SwitchTarget;
use bam_code::target::Target;
use std::alloc::Global;
use std::collections::HashSet;

/// The lines that a run may come to, in their order.
pub fn reached(alloc: Global, lines: Vec<Line>) -> Result<Vec<Line>, Memory>
    ensures { IfOk result (λ reached. reached.items ≡ reached_lines true nothing_named lines.items) }
{
    let mut reach = Reach::new(alloc);
    let mut reached = Vec::with_capacity(alloc, lines.len())?;
    for line in lines {
        reach.put(line, &mut reached)?;
    }
    Ok(reached)
}

/// Where runs come to, found from the first line to the last.
#[derive(Drop)]
struct Reach {
    /// The numbers of the labels that the lines so far name.
    named: HashSet<u32>,
    /// Whether a run goes on to the next line.
    goes_on: bool,
}

impl Reach {
    ghost use Rattle.std.specs.Prelude.{ℕ, ◌&&◌, ◌||◌, List, ◌∷◌, ◌++◌, OnOk};
    ghost use Rattle.bam_code.specs.declared.line.Line.{Line};
    ghost use Rattle.bam_peephole.specs.Threaded.{is_number};
    ghost use Rattle.bam_peephole.specs.Reached.{goes_on, is_named, is_reached, names_by_switch, names_label};
    ghost use Rattle.bam_peephole.specs.LineLabels.{any_label};
    ghost use Rattle.bam_peephole.specs.Reach.{named_in};

    fn new(alloc: Global) -> Reach
        ensures goes_on { result.goes_on ≡ true }
        ensures named { (q : ℕ) → named_in result q ≡ nothing_named q }
    {
        Reach {
            named: HashSet::new(alloc),
            goes_on: true,
        }
    }

    /// Goes past a line, and puts it behind those that a run may come to, if it is one of them.
    fn put(&mut self, line: Line, reached: &mut Vec<Line>) -> Result<(), Memory>
        ensures { (rest : List Line) → OnOk result (reached.old.items ++ reached_lines self.old.goes_on (named_in self.old) (line ∷ rest) ≡ reached.new.items ++ reached_lines self.new.goes_on (named_in self.new) rest) }
    {
        if self.take(&line)? {
            reached.push(line)?;
            Ok(())
        } else {
            Ok(())
        }
    }

    /// Goes past a line, and says whether a run may come to it.
    fn take(&mut self, line: &Line) -> Result<bool, Memory>
        ensures reached { IfOk result (λ is. is ≡ is_reached self.old.goes_on (named_in self.old) line.now) }
        ensures goes_on { IfOk result (λ is. self.new.goes_on ≡ (is && goes_on line.now)) }
        ensures named { IfOk result (λ is. (q : ℕ) → named_in self.new q ≡ (named_in self.old q || (is && names_label q line.now))) }
    {
        let reached = self.goes_on || self.names(line);
        if reached {
            self.name_targets(line)?;
        }
        self.goes_on = reached && goes_on(line);
        Ok(reached)
    }

    /// Whether a line is a label that an earlier line names.
    fn names(&self, line: &Line) -> bool
        ensures { result ≡ is_named (named_in self.now) (any_label line.now) }
    {
        match any_label(line) {
            Some(number) => self.named.contains(&number),
            None => false,
        }
    }

    /// Notes the labels that a line may go to.
    fn name_targets(&mut self, line: &Line) -> Result<(), Memory>
        ensures goes_on { OnOk result (self.new.goes_on ≡ self.old.goes_on) }
        ensures named { OnOk result ((q : ℕ) → named_in self.new q ≡ (named_in self.old q || names_label q line.now)) }
    {
        match line {
            Line::Jump(target) => self.name_target(*target),
            Line::Retry(alternative) => self.name_target(*alternative),
            Line::Match { other, .. } => self.name_target(*other),
            Line::Functor { other, .. } => self.name_target(*other),
            Line::Try { alternative, .. } => self.name_target(*alternative),
            Line::Catch { ball, .. } => self.name_target(*ball),
            Line::Switch {
                reference,
                atom,
                integer,
                list,
                structure,
                ..
            } => {
                self.name_switch_target(*reference)?;
                self.name_two(*atom, *integer)?;
                self.name_two(*list, *structure)
            }
            _ => Ok(()),
        }
    }

    fn name_two(&mut self, first: Target, second: Target) -> Result<(), Memory>
        ensures goes_on { OnOk result (self.new.goes_on ≡ self.old.goes_on) }
        ensures named { OnOk result ((q : ℕ) → named_in self.new q ≡ (named_in self.old q || (is_number q first || is_number q second))) }
    {
        self.name_target(first)?;
        self.name_target(second)
    }

    fn name_target(&mut self, target: Target) -> Result<(), Memory>
        ensures goes_on { OnOk result (self.new.goes_on ≡ self.old.goes_on) }
        ensures named { OnOk result ((q : ℕ) → named_in self.new q ≡ (named_in self.old q || is_number q target)) }
    {
        if let Target::Label(number) = target {
            self.named.insert(number)?;
        }
        Ok(())
    }

    fn name_switch_target(&mut self, target: SwitchTarget) -> Result<(), Memory>
        ensures goes_on { OnOk result (self.new.goes_on ≡ self.old.goes_on) }
        ensures named { OnOk result ((q : ℕ) → named_in self.new q ≡ (named_in self.old q || names_by_switch q target)) }
    {
        if let SwitchTarget::Label(number) = target {
            self.named.insert(number)?;
        }
        Ok(())
    }
}
