ghost use Rattle.std.specs.Prelude.{◌≡◌, ◌≢◌, ◌↔◌, ℕ, IsTrue};
ghost use Rattle.std.specs.Int.{cast_unsigned, cast_signed, w64};

use crate::tag::Tag;
use std::marker::Model;

/// A machine word: bits 0 to 63 hold the value, bits 64 to 67 the tag's number, the others are zero.
/// Contracts see its tag and its value.
#[derive(Clone, Copy, Debug)]
pub struct Word {
    bits: u128,
}

impl Model for Word {
    ghost use Rattle.std.specs.Prelude.{◌/◌, ◌^◌, ◌≤◌};
    ghost use Rattle.tag_word.specs.Tagged.{Tagged};

    ghost Value = { Tagged };

    ghost use Rattle.tag_word.specs.WordBits.{tagged_of, word_of, word_of-tagged_of};

    ghost view = { tagged_of };

    ghost invariant = { λ w. (1 ≤ w.bits / 2 ^ 64) × (w.bits / 2 ^ 64 ≤ 10) };

    ghost inverse = { word_of };

    ghost inverse_ok = { λ w h. word_of-tagged_of w h.0 h.1 };
}

impl Word {
    /// The word of an integer.
    pub const fn of_int(value: i64) -> Word
        ensures { result ≡ record { tag = Tag.Int; value = cast_unsigned w64 value } }
    {
        Word::with_parts(Tag::Int, value.cast_unsigned())
    }

    /// The word with this tag and this value.
    pub const fn of(tag: Tag, index: u64) -> Word
        requires { tag ≢ Tag.Int }
        ensures { result ≡ record { tag = tag; value = index } }
    {
        Word::with_parts(tag, index)
    }

    /// What the word's value is.
    pub const fn tag(self) -> Tag
        ensures { result ≡ self.tag }
    {
        match self.bits >> 64 {
            1 => Tag::Ref,
            2 => Tag::Atm,
            3 => Tag::Int,
            4 => Tag::Lst,
            5 => Tag::Str,
            6 => Tag::Fun,
            7 => Tag::Bar,
            8 => Tag::Cod,
            9 => Tag::Frm,
            _ => Tag::Hol,
        }
    }

    /// The integer that the word is.
    pub const fn int(self) -> i64
        requires { self.tag ≡ Tag.Int }
        ensures { result ≡ cast_signed w64 self.value }
    {
        self.value().cast_signed()
    }

    /// The word's value, for every tag but that of an integer.
    pub const fn index(self) -> u64
        requires { self.tag ≢ Tag.Int }
        ensures { result ≡ self.value }
    {
        self.value()
    }

    /// Whether both words have the same tag and the same value.
    pub const fn is(self, other: Word) -> bool
        ensures { IsTrue result ↔ (self ≡ other) }
    {
        self.bits == other.bits
    }

    const fn with_parts(tag: Tag, value: u64) -> Word
        ensures { result ≡ record { tag = tag; value = value } }
    {
        Word {
            bits: ((tag.number() as u128) << 64) | value as u128,
        }
    }

    /// The word's value, whatever its tag.
    pub const fn value(self) -> u64
        ensures { result ≡ self.value }
    {
        (self.bits & 0xffff_ffff_ffff_ffff) as u64
    }
}

#[cfg(test)]
mod tests {
    use super::*;

    #[test]
    fn gives_back_what_it_was_made_of(rt: HostRuntime) {
        let least = Word::of_int(i64::MIN);
        assert!(rt; least.tag() == Tag::Int);
        assert_eq!(rt; least.int(), i64::MIN);
        assert_eq!(rt; Word::of_int(-1).int(), -1);
        let hole = Word::of(Tag::Hol, 0);
        assert!(rt; hole.tag() == Tag::Hol);
        assert_eq!(rt; Word::of(Tag::Ref, u64::MAX).index(), u64::MAX);
        assert!(rt; Word::of(Tag::Ref, 7).is(Word::of(Tag::Ref, 7)));
        assert!(rt; !Word::of(Tag::Ref, 7).is(Word::of(Tag::Lst, 7)));
    }
}
