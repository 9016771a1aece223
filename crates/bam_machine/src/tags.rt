ghost use Rattle.std.specs.Prelude.{◌≡◌, ◌≢◌, ◌↔◌, IsTrue};

use tag_word::tag::Tag;
use tag_word::word::Word;

/// Whether a word has this tag. It compares bits alone, while `Word::tag` tells all tags apart.
#[inline]
pub fn has_tag(word: Word, tag: Tag) -> bool
    requires { tag ≢ Tag.Int }
    ensures { IsTrue result ↔ (word.tag ≡ tag) }
{
    word.is(Word::of(tag, word.value()))
}

/// Whether a word is that of a hole. No tag has a higher number, so that one comparison of the bits tells it.
#[inline]
pub fn is_hole(word: Word) -> bool
    ensures { IsTrue result ↔ (word.tag ≡ Tag.Hol) }
{
    match word.tag() {
        Tag::Hol => true,
        _ => false,
    }
}
