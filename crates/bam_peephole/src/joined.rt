ghost use Rattle.std.specs.Prelude.{◌≡◌, ◌∷◌, IfOk, IsTrue, OnOk, map, reverse};
ghost use Rattle.bam_peephole.specs.Acts.{acts};
ghost use Rattle.bam_peephole.specs.Clean.{is_clean, label_behind};
ghost use Rattle.bam_peephole.specs.Relabeled.{from_the_end, relabeled};

use crate::from_the_end::FromTheEnd;
use crate::line_labels::plain_label;
use crate::needed::is_needed;
use crate::new_numbers::NewNumbers;
use crate::relabel::relabel;
use aq_term::memory::Memory;
use bam_code::line::Line;
use std::alloc::Global;

/// The lines that do something, in their order, with their labels numbered from 0. Labels side by side become the last of them.
pub fn joined(alloc: Global, lines: Vec<Line>) -> Result<Vec<Line>, Memory>
    ensures clean { IfOk result (λ joined. IsTrue (is_clean joined.items)) }
    ensures acts { IfOk result (λ joined. acts joined.items ≡ acts lines.items) }
{
    let mut lines = lines;
    let mut numbers = NewNumbers::new(alloc);
    let mut kept = Vec::with_capacity(alloc, lines.len())?;
    while let Some(line) = lines.pop() {
        put_in_front(line, &mut numbers, &mut kept)?;
    }
    kept.reverse();
    relabel_all(
        &mut kept,
        FromTheEnd {
            count: numbers.count(),
        },
    );
    Ok(kept)
}

/// Puts a line in front of those that are kept, if it does something. They stand from the last to the first.
fn put_in_front(line: Line, numbers: &mut NewNumbers, kept: &mut Vec<Line>) -> Result<(), Memory>
    ensures clean { IsTrue (is_clean (reverse kept.old.items)) → OnOk result (IsTrue (is_clean (reverse kept.new.items))) }
    ensures acts { OnOk result (acts (reverse kept.new.items) ≡ acts (line ∷ reverse kept.old.items)) }
{
    let mut line = line;
    let behind = label_behind(kept);
    numbers.note(&line, behind)?;
    relabel(&mut line, numbers);
    if is_needed(&line, behind) {
        kept.push(line)?;
    }
    Ok(())
}

/// The number of the label directly behind, where the lines stand from the last to the first.
fn label_behind(kept: &Vec<Line>) -> Option<u32>
    ensures { result ≡ label_behind (reverse kept.now.items) }
{
    match kept.last() {
        Some(line) => plain_label(line),
        None => None,
    }
}

/// Numbers the labels from the other end.
fn relabel_all(lines: &mut Vec<Line>, numbers: FromTheEnd)
    ensures { lines.new.items ≡ map (relabeled (from_the_end numbers.count)) lines.old.items }
{
    for line in lines.iter_mut() {
        relabel(line, &numbers);
    }
}
