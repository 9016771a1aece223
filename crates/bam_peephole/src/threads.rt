ghost use Rattle.std.specs.Prelude.{◌≡◌, IfOk};
ghost use Rattle.bam_peephole.specs.Threaded.{led};

use crate::needed::moves_in_place;
use aq_term::memory::Memory;
use bam_code::line::Line;
use bam_code::target::Target;
use std::alloc::Global;
use std::collections::HashMap;

/// The lines, of which each `jump` names where it leads in the end. A jump to labels in front of a `jump` leads where that one leads,
/// and one to labels in front of another line leads to the last of them.
pub fn led(alloc: Global, lines: Vec<Line>) -> Result<Vec<Line>, Memory>
    ensures { IfOk result (λ after. after.items ≡ led lines.items) }
{
    let mut lines = lines;
    let mut threads = Threads::new(alloc);
    let mut led = Vec::with_capacity(alloc, lines.len())?;
    while let Some(line) = lines.pop() {
        led.push(threads.take(line)?)?;
    }
    led.reverse();
    Ok(led)
}

/// Where jumps lead, found from the last line to the first.
#[derive(Drop)]
struct Threads {
    /// Where a jump to a label leads in the end.
    ends: HashMap<u32, Target>,
    /// Where a run that comes to the line behind leads, if all that it does there is to jump or to pass a label.
    behind: Option<Target>,
}

impl Threads {
    ghost use Rattle.std.specs.Prelude.{[], OnOk};
    ghost use Rattle.bam_peephole.specs.Threaded.{Thread, in_front, led_line, past_label, thread};
    ghost use Rattle.bam_peephole.specs.Follows.{Follows};

    fn new(alloc: Global) -> Threads
        ensures { Follows (thread []) result }
    {
        Threads {
            ends: HashMap::new(alloc),
            behind: None,
        }
    }

    /// Goes past a line, and gives it with where it leads.
    fn take(&mut self, line: Line) -> Result<Line, Memory>
        ensures line { (thread : Thread) → Follows thread self.old → IfOk result (λ led. led ≡ led_line thread line) }
        ensures after { (thread : Thread) → Follows thread self.old → OnOk result (Follows (in_front line thread) self.new) }
    {
        self.pass(&line)?;
        Ok(self.led_line(line))
    }

    fn led_line(&self, line: Line) -> Line
        ensures { (thread : Thread) → Follows thread self.now → result ≡ led_line thread line }
    {
        match line {
            Line::Jump(target) => Line::Jump(self.end_of(target)),
            other => other,
        }
    }

    fn pass(&mut self, line: &Line) -> Result<(), Memory>
        ensures { (thread : Thread) → Follows thread self.old → OnOk result (Follows (in_front line.now thread) self.new) }
    {
        match line {
            Line::Label { number, .. } => self.pass_label(*number),
            Line::Jump(target) => {
                self.behind = Some(self.end_of(*target));
                Ok(())
            }
            _ => {
                if !moves_in_place(line) {
                    self.behind = None;
                }
                Ok(())
            }
        }
    }

    fn pass_label(&mut self, number: u32) -> Result<(), Memory>
        ensures { (thread : Thread) → Follows thread self.old → OnOk result (Follows (past_label number thread) self.new) }
    {
        let end = self.behind.unwrap_or(Target::Label(number));
        self.ends.insert(number, end)?;
        self.behind = Some(end);
        Ok(())
    }

    fn end_of(&self, target: Target) -> Target
        ensures { (thread : Thread) → Follows thread self.now → result ≡ thread.jump target }
    {
        match target {
            Target::Label(number) => match self.ends.get(&number) {
                Some(end) => *end,
                None => target,
            },
            Target::Fails => Target::Fails,
        }
    }
}
