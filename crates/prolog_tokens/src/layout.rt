ghost use Rattle.std.specs.Prelude.{◌≡◌, ◌≢◌, ℕ, ◌+◌, ◌<◌, ◌≤◌, ◌↔◌, length, slice_index, IsTrue, IfOk, IfErr, IfSome, IfNone, slice_range};
ghost use Rattle.std.specs.Str.{IsUtf8};
ghost use Rattle.prolog_tokens.specs.Layout.{is_blank, IsLineEnd, IsBlockEnd, ClosesAt, IsLineComment, IsBlockComment, OpensBlock, Gap, NoGap};
ghost use Rattle.prolog_tokens.specs.Opening.{Opens, Step, BreaksAt, BreaksFrom};

use crate::fault::TokenFault;
use std::str;

/// Whether the byte is a space, a tab, a new line, a carriage return, a form feed or a vertical tab.
pub fn is_blank(byte: u8) -> bool
    ensures { result ≡ is_blank byte }
{
    byte == b' ' || byte == b'\t' || byte == b'\n' || byte == b'\r' || byte == 0x0C || byte == 0x0B
}

/// The end of the line in which `at` lies, without its new line.
fn line_end(text: &[u8], at: usize) -> usize
    requires { at ≤ length text.now }
    ensures { IsLineEnd text.now at result }
{
    for i in at..text.len() {
        if text[i] == b'\n' {
            return i;
        }
    }
    text.len()
}

/// The place after the first `*/` from `at` on.
fn block_end(text: &[u8], at: usize) -> Option<usize>
    requires { at ≤ length text.now }
    ensures found { IfSome result (λ end. IsBlockEnd text.now at end) }
    ensures none { IfNone result ((k : ℕ) → at ≤ k → ClosesAt text.now k → ⊥) }
{
    for i in at..text.len() {
        if at < i && text[i - 1] == b'*' && text[i] == b'/' {
            return Some(i + 1);
        }
    }
    None
}

/// Whether the text from `at` to `end` is UTF-8.
fn is_text(text: &[u8], at: usize, end: usize) -> bool
    requires low { at ≤ end }
    requires high { end ≤ length text.now }
    ensures { IsTrue result ↔ IsUtf8 (slice_range text.now at end) }
{
    str::from_utf8(&text[at..end]).is_ok()
}

/// The end of the comment that begins at `at`, or `None` where it is broken: never closed, or not
/// UTF-8.
fn line_comment(text: &[u8], at: usize) -> Option<usize>
    requires begins { at < length text.now }
    requires percent { slice_index text.now at ≡ 37 }
    ensures found { IfSome result (λ end. IsLineComment text.now at end) }
    ensures none { IfNone result ((end : ℕ) → IsLineComment text.now at end → ⊥) }
{
    let end = line_end(text, at);
    is_text(text, at, end).then_some(end)
}

/// The same of a comment that begins with `/*`.
fn block_comment(text: &[u8], at: usize) -> Option<usize>
    requires { OpensBlock text.now at }
    ensures found { IfSome result (λ end. IsBlockComment text.now at end) }
    ensures none { IfNone result ((end : ℕ) → IsBlockComment text.now at end → ⊥) }
{
    let end = block_end(text, at + 2)?;
    is_text(text, at, end).then_some(end)
}

/// What begins at a place between tokens.
#[derive(Clone, Copy, Debug, PartialEq, Eq)]
enum Opening {
    Blank,
    LineComment,
    BlockComment,
    Other,
}

fn opening_at(text: &[u8], at: usize) -> Opening
    requires { at < length text.now }
    ensures { Opens text.now at result }
{
    let byte = text[at];
    if is_blank(byte) {
        Opening::Blank
    } else if byte == b'%' {
        Opening::LineComment
    } else if byte == b'/' && at + 1 < text.len() && text[at + 1] == b'*' {
        Opening::BlockComment
    } else {
        Opening::Other
    }
}

/// The end of the layout byte or the comment at `at`; `at` itself where neither begins there.
fn gap_end(text: &[u8], at: usize) -> Result<usize, TokenFault>
    requires { at < length text.now }
    ensures found { IfOk result (λ end. Step text.now at end) }
    ensures broken { IfErr result (λ e. BreaksAt text.now at e) }
{
    let broken = TokenFault::At(at as u64);
    match opening_at(text, at) {
        Opening::Blank => Ok(at + 1),
        Opening::LineComment => line_comment(text, at).ok_or(broken),
        Opening::BlockComment => block_comment(text, at).ok_or(broken),
        Opening::Other => Ok(at),
    }
}

/// The first place from `at` on at which neither layout nor a comment begins. The fault is at the
/// first comment that is broken.
pub fn skip_layout(text: &[u8], from: usize) -> Result<usize, TokenFault>
    requires { from ≤ length text.now }
    ensures skipped { IfOk result (λ end. Gap text.now from end) }
    ensures stops { IfOk result (λ end. NoGap text.now end) }
    ensures high { IfOk result (λ end. end ≤ length text.now) }
    ensures fault { IfErr result (λ e. BreaksFrom text.now from e) }
{
    let mut at = from;
    while at < text.len() {
        let end = gap_end(text, at)?;
        if end == at {
            break;
        }
        at = end;
    }
    Ok(at)
}
