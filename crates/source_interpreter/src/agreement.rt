//! Whether a compiled run wrote what the interpreter did.

use crate::ending::Ending;
use crate::transcript::Transcript;

/// How far two runs of one query agree.
#[derive(Clone, Copy, Debug, PartialEq, Eq)]
pub enum Agreement {
    /// Both ended, and wrote the same.
    Whole,
    /// One of them did not end as the language says, and what it wrote until then is how the other one begins.
    Front,
    /// They wrote different things.
    None,
}

/// What a compiled run wrote, without its ending and its counts.
#[derive(Clone, Copy, Debug)]
struct Cut<'a> {
    /// All up to the ending's line and with it.
    closed: &'a [u8],
    /// All before the ending's line.
    front: &'a [u8],
    /// The ending's line without its new line.
    ending: &'a [u8],
}

/// Compares what the interpreter wrote with all that a compiled run wrote, its ending and its counts among them.
pub fn agreement_of(interpreted: &Transcript, compiled: &[u8]) -> Agreement {
    let bytes = interpreted.bytes.as_slice();
    let Some(cut) = parts_of(compiled) else {
        return Agreement::None;
    };
    let is_limited = cut.ending.starts_with(b"limit: ");
    match interpreted.ending {
        Ending::Lost => Agreement::None,
        Ending::Exhausted | Ending::Raised if !is_limited => whole(bytes, cut.closed),
        Ending::Exhausted | Ending::Raised => front(bytes, cut.front),
        Ending::Occurs | Ending::Stopped if !is_limited => begins(cut.front, bytes),
        Ending::Occurs | Ending::Stopped => either(bytes, cut.front),
    }
}

/// The parts of what a compiled run wrote.
fn parts_of(compiled: &[u8]) -> Option<Cut<'_>> {
    let (closed, counts) = last_line(compiled)?;
    if !counts.starts_with(b"% code ") {
        return None;
    }
    let (front, ending) = last_line(closed)?;
    Some(Cut {
        closed,
        front,
        ending,
    })
}

/// What stands before the last line, and the last line without its new line.
fn last_line(text: &[u8]) -> Option<(&[u8], &[u8])> {
    let (last, lines) = text.split_last()?;
    if *last != b'\n' {
        return None;
    }
    let place = match lines.iter().rposition(|byte| *byte == b'\n') {
        Some(place) => place.checked_add(1)?,
        None => 0,
    };
    lines.split_at_checked(place)
}

fn whole(bytes: &[u8], closed: &[u8]) -> Agreement {
    if bytes == closed {
        Agreement::Whole
    } else {
        Agreement::None
    }
}

/// Whether a text begins with what a run wrote until it was stopped, where a new line before the ending may stand for nothing.
fn front(text: &[u8], stopped: &[u8]) -> Agreement {
    match begins(text, stopped) {
        Agreement::None => match stopped.split_last() {
            Some((b'\n', before)) => begins(text, before),
            _ => Agreement::None,
        },
        agreement => agreement,
    }
}

fn either(bytes: &[u8], stopped: &[u8]) -> Agreement {
    match front(bytes, stopped) {
        Agreement::None => begins(stopped, bytes),
        agreement => agreement,
    }
}

fn begins(text: &[u8], front: &[u8]) -> Agreement {
    if text.starts_with(front) {
        Agreement::Front
    } else {
        Agreement::None
    }
}
