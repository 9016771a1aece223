ghost use Rattle.std.specs.Prelude.{◌≡◌, IfOk};
ghost use Rattle.move_coalescing.specs.Coalesced.{OnlyMovesGo};

use crate::flow::{Flow, flow_after};
use crate::registers::set_register;
use aq_term::memory::Memory;
use bam_code::line::Line;
use bam_code::place::Place;
use bam_code::source::Source;
use std::alloc::Global;
use std::collections::HashMap;

/// The lines without the moves of a slot to the register whose word was put into it, where that register was not set since.
pub fn without_reloads(alloc: Global, lines: Vec<Line>) -> Result<Vec<Line>, Memory>
    ensures { IfOk result (λ kept. OnlyMovesGo lines.items kept.items) }
{
    let mut saved = Saved::new(alloc);
    let mut kept = Vec::with_capacity(alloc, lines.len())?;
    for line in lines {
        saved.put(line, &mut kept)?;
    }
    Ok(kept)
}

/// Which registers have their word in a slot too, found from the first line to the last.
#[derive(Drop)]
struct Saved {
    alloc: Global,
    /// For each such register the slot that its word was put into last.
    slots: HashMap<u16, u8>,
}

impl Saved {
    ghost use Rattle.std.specs.Prelude.{◌++◌, ◌∷◌, [], IsTrue, OnOk, true};
    ghost use Rattle.move_coalescing.specs.Outlines.{is_register_move};

    fn new(alloc: Global) -> Saved {
        Saved {
            alloc,
            slots: HashMap::new(alloc),
        }
    }

    /// Goes past a line, and puts it behind those that are kept, if it is not needless.
    fn put(&mut self, line: Line, kept: &mut Vec<Line>) -> Result<(), Memory>
        ensures { OnOk result (OnlyMovesGo (kept.old.items ++ line ∷ []) kept.new.items) }
    {
        if self.is_reload(&line) {
            Ok(())
        } else {
            self.take(&line)?;
            kept.push(line)?;
            Ok(())
        }
    }

    /// Whether a line moves a slot to a register that has the slot's word.
    fn is_reload(&self, line: &Line) -> bool
        ensures { IsTrue result → is_register_move line.now ≡ true }
    {
        match line {
            Line::Move {
                into: Place::Register(register),
                from: Source::Slot(slot),
            } => self.slots.get(register).copied() == Some(*slot),
            _ => false,
        }
    }

    /// Goes past a line that is kept. Behind a call no register is as it was, a slot is another one in another frame, and behind
    /// a fill the slots of its hole may be set anew.
    fn take(&mut self, line: &Line) -> Result<(), Memory> {
        match line {
            Line::Move {
                into: Place::Slot(slot),
                from: Source::Register(register),
            } => {
                self.slots.insert(*register, *slot)?;
                Ok(())
            }
            Line::Fill { .. } | Line::Allocate(_) | Line::Deallocate => {
                self.forget_all();
                Ok(())
            }
            _ => {
                self.pass(line);
                Ok(())
            }
        }
    }

    fn pass(&mut self, line: &Line) {
        if flow_after(line) != Flow::GoesOn {
            self.forget_all();
        } else if let Some(register) = set_register(line) {
            self.slots.remove(&register);
        }
    }

    fn forget_all(&mut self) {
        self.slots = HashMap::new(self.alloc);
    }
}
