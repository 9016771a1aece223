ghost use Rattle.std.specs.Prelude.{◌≡◌};
ghost use Rattle.bam_types.specs.WordTypes.{both_known, follows};

use bam_code::known::Known;

/// What is known of a term of which both are known.
pub fn both_known(left: Known, right: Known) -> Known
    ensures { result ≡ both_known left right }
{
    match (left, right) {
        (Known::Any, other) => other,
        (Known::Ground, _) | (_, Known::Ground) => Known::Ground,
        _ => Known::Nonvar,
    }
}

/// Whether the second says no more of a term than the first.
pub fn follows(known: Known, wanted: Known) -> bool
    ensures { result ≡ follows known wanted }
{
    match wanted {
        Known::Any => true,
        Known::Nonvar => !matches!(known, Known::Any),
        Known::Ground => matches!(known, Known::Ground),
    }
}
