ghost use Rattle.std.specs.Prelude.{◌≡◌, ◌≢◌, ◌++◌, ℕ, List, Some, false, codes, MatchOption};
ghost use Rattle.source_meaning.specs.Program.{Name};
ghost use Rattle.source_meaning.specs.RuleFront.{behind_gap, IsEntry};

use crate::layout::behind_layout;
use crate::name::{NameFront, split_name};
use crate::prefix::text_after;

/// The name that the entry declaration behind the text's layout gives, and what stands behind its full stop, or `None`
/// where there is no such declaration.
pub fn read_entry(text: &[u8]) -> Option<NameFront<'_>>
    ensures { MatchOption result
        ((entry : Name) (after : List ℕ) → IsEntry text.now entry after → ⊥)
        (λ front. IsEntry text.now front.name.now front.rest.now) }
{
    let Some(opened) = behind_opening(text) else {
        return None;
    };
    let Some(entry) = split_name(opened) else {
        return None;
    };
    let Some(rest) = text_after(entry.rest, b").") else {
        return None;
    };
    Some(NameFront {
        name: entry.name,
        rest,
    })
}

/// What stands behind the words that open a declaration, which stand behind the layout at the text's front.
fn behind_opening(text: &[u8]) -> Option<&[u8]>
    ensures { MatchOption result
        ((rest : List ℕ) → behind_gap false text.now ≢ Some (codes ":- entry(" ++ rest))
        (λ rest. behind_gap false text.now ≡ Some (codes ":- entry(" ++ rest.now)) }
{
    match behind_layout(text) {
        None => None,
        Some(begun) => text_after(begun, b":- entry("),
    }
}
