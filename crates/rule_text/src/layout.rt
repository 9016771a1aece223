ghost use Rattle.std.specs.Prelude.{◌≡◌, ◌∷◌, false, List, ℕ};
ghost use Rattle.std.specs.Option.{option_copied};
ghost use Rattle.source_meaning.specs.RuleText as spec;
ghost use Rattle.source_meaning.specs.RuleFront as front;
ghost use Rattle.rule_text.specs.Lead.{lead_gives};

/// The byte that begins a comment, which goes on to the end of its line.
const COMMENT: u8 = b'%';

/// What a byte in front of a text is.
#[derive(Clone, Copy)]
enum Lead {
    /// Layout, and the end of a comment where it is within one.
    Layout,
    /// Part of a comment.
    Comment,
    /// The first byte behind the layout.
    Behind,
    /// No byte of a comment.
    Fault,
}

/// Whether the byte is a space or a new line.
fn is_blank(byte: u8) -> bool
    ensures { result ≡ spec.is_blank byte }
{
    byte == b' ' || byte == b'\n'
}

/// What stands behind the layout at the text's front, or `None` where a comment there has no end or is no ASCII text.
pub fn behind_layout(text: &[u8]) -> Option<&[u8]>
    ensures { option_copied result ≡ front.behind_gap false text.now }
{
    let mut in_comment = false;
    for at in 0..text.len() {
        match lead_at(in_comment, text[at]) {
            Lead::Layout => in_comment = false,
            Lead::Comment => in_comment = true,
            Lead::Behind => return Some(&text[at..]),
            Lead::Fault => return None,
        }
    }
    if in_comment { None } else { Some(&[]) }
}

/// What stands behind the layout behind a full stop, or `None` where there is no layout and the text goes on, and where
/// a comment there has no end or is no ASCII text.
pub fn behind_stop(text: &[u8]) -> Option<&[u8]>
    ensures { option_copied result ≡ front.behind_stop text.now }
{
    match text.first() {
        None => Some(text),
        Some(byte) => {
            if is_blank(*byte) || *byte == COMMENT {
                behind_layout(text)
            } else {
                None
            }
        }
    }
}

fn lead_at(in_comment: bool, byte: u8) -> Lead
    ensures { (bytes : List ℕ) → front.behind_gap in_comment (byte ∷ bytes) ≡ lead_gives result byte bytes }
{
    if in_comment {
        if byte == b'\n' {
            Lead::Layout
        } else if byte < 128 {
            Lead::Comment
        } else {
            Lead::Fault
        }
    } else if is_blank(byte) {
        Lead::Layout
    } else if byte == COMMENT {
        Lead::Comment
    } else {
        Lead::Behind
    }
}
