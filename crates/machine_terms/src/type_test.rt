ghost use Rattle.std.specs.Prelude.{◌≡◌, ◌≢◌, ◌↔◌, IsTrue};
ghost use Rattle.machine_terms.specs.Kinds.{names_constant, names_compound};

use tag_word::tag::Tag;
use tag_word::word::Word;

/// Whether a dereferenced word is that of a variable: `var/1`.
pub fn is_variable(word: Word) -> bool
    ensures { IsTrue result ↔ (word.tag ≡ Tag.Ref) }
{
    word.tag() == Tag::Ref
}

/// Whether a dereferenced word is that of no variable: `nonvar/1`.
pub fn is_no_variable(word: Word) -> bool
    ensures { IsTrue result ↔ (word.tag ≢ Tag.Ref) }
{
    word.tag() != Tag::Ref
}

/// Whether a dereferenced word is that of an atom: `atom/1`.
pub fn is_atom(word: Word) -> bool
    ensures { IsTrue result ↔ (word.tag ≡ Tag.Atm) }
{
    word.tag() == Tag::Atm
}

/// Whether a dereferenced word is that of an integer: `integer/1`, and `number/1`, since all numbers are integers.
pub fn is_integer(word: Word) -> bool
    ensures { IsTrue result ↔ (word.tag ≡ Tag.Int) }
{
    word.tag() == Tag::Int
}

/// Whether a dereferenced word is that of an atom or an integer: `atomic/1`.
pub fn is_atomic(word: Word) -> bool
    ensures { result ≡ names_constant word.tag }
{
    matches!(word.tag(), Tag::Atm | Tag::Int)
}

/// Whether a dereferenced word is that of a compound or a list cell: `compound/1`.
pub fn is_compound(word: Word) -> bool
    ensures { result ≡ names_compound word.tag }
{
    matches!(word.tag(), Tag::Lst | Tag::Str)
}
