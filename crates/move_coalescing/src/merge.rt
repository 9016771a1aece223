ghost use Rattle.std.specs.Prelude.{◌≡◌, ◌++◌, ◌∷◌, IfOk, IsTrue, OnOk, length, map, reverse, true};
ghost use Rattle.move_coalescing.specs.Outlines.{is_register_move, outline};
ghost use Rattle.move_coalescing.specs.Coalesced.{OnlyMovesGo};

use crate::behind::Behind;
use crate::flow::{Flow, flow_after};
use crate::moves::{RegisterMove, register_move};
use crate::registers::{FIRST, set_register, uses_register};
use crate::rename::Change;
use aq_term::memory::Memory;
use bam_code::line::Line;
use std::alloc::Global;

/// The lines without the moves that can be merged into the line that sets the word. The last move comes first, and each is looked at
/// with what came of those behind it.
pub fn merged(alloc: Global, lines: Vec<Line>) -> Result<Vec<Line>, Memory>
    ensures { IfOk result (λ kept. OnlyMovesGo lines.items kept.items) }
{
    let mut lines = lines;
    let mut behind = Behind::new(alloc);
    let mut kept = Vec::with_capacity(alloc, lines.len())?;
    while let Some(line) = lines.pop() {
        put(line, &mut lines, &mut behind, &mut kept)?;
    }
    kept.reverse();
    Ok(kept)
}

/// Merges a line into those before it, or puts it behind those that are kept, which stand from the last to the first.
fn put(
    line: Line,
    before: &mut Vec<Line>,
    behind: &mut Behind,
    kept: &mut Vec<Line>,
) -> Result<(), Memory>
    ensures moves { OnOk result (OnlyMovesGo (before.old.items ++ line ∷ reverse kept.old.items) (before.new.items ++ reverse kept.new.items)) }
    ensures count { OnOk result (length before.new.items ≡ length before.old.items) }
{
    if merge(&line, before, behind) {
        Ok(())
    } else {
        behind.take(&line)?;
        kept.push(line)?;
        Ok(())
    }
}

/// Merges a line into those before it, and says whether it was one to be merged.
fn merge(line: &Line, before: &mut Vec<Line>, behind: &Behind) -> bool
    ensures outlines { map outline before.new.items ≡ map outline before.old.items }
    ensures moves { IsTrue result → is_register_move line.now ≡ true }
{
    match register_move(line) {
        Some(moved) => moved.into == moved.from || merge_move(moved, before, behind),
        None => false,
    }
}

/// Has the line that sets what a `move` takes set what it gives, and says whether that can be.
fn merge_move(moved: RegisterMove, before: &mut Vec<Line>, behind: &Behind) -> bool
    ensures { map outline before.new.items ≡ map outline before.old.items }
{
    if moved.into >= FIRST || moved.from < FIRST || behind.needs(moved.from) {
        return false;
    }
    let Some(at) = setting(before.as_slice(), moved) else {
        return false;
    };
    let change = Change {
        old: moved.from,
        new: moved.into,
    };
    change.in_set_at(before, at);
    change.in_reads(before, at.saturating_add(1));
    true
}

/// The place of the last line that sets what a `move` behind the lines takes. There is none where that line, or one behind it, hinders the
/// merging.
fn setting(lines: &[Line], moved: RegisterMove) -> Option<usize> {
    let mut at = lines.len();
    while at > 0 {
        at -= 1;
        let line = lines.get(at)?;
        if set_register(line) == Some(moved.from) {
            return if pushes_to(lines, at.saturating_add(1), moved.into) {
                None
            } else {
                Some(at)
            };
        }
        if flow_after(line) != Flow::GoesOn || uses_register(line, moved.into) {
            return None;
        }
    }
    None
}

/// Whether the last of so many lines is a push to the structure or the list cell of a register. A line behind all pushes of that register
/// may be taken for one more.
fn pushes_to(lines: &[Line], count: usize, register: u16) -> bool {
    let mut at = count;
    while at > 0 {
        at -= 1;
        match lines.get(at) {
            Some(Line::Push(_) | Line::PushNew { .. } | Line::Hole { .. }) => {}
            Some(Line::Structure { register: made, .. } | Line::ListCell { register: made }) => {
                return *made == register;
            }
            _ => return false,
        }
    }
    false
}
