ghost use Rattle.std.specs.Prelude.{◌≡◌, ◌≢◌, ◌+◌, ◌-◌, ◌*◌, ◌/◌, ◌%◌, ◌^◌, ◌≤◌, ◌↔◌, IsTrue};

use tag_word::tag::Tag;
use tag_word::word::Word;

/// What leads to a frame or to a catcher: the index after its last word, 0 standing for none, and a count. The count is
/// that of the frame's slots, or that of the catchers in force.
#[derive(Clone, Copy, Debug, PartialEq, Eq)]
pub struct Link {
    pub count: u32,
    pub end: u32,
}

impl Link {
    /// A link to nothing.
    pub fn none() -> Link
        ensures count { result.count ≡ 0 }
        ensures end { result.end ≡ 0 }
    {
        Link { count: 0, end: 0 }
    }

    /// The link that a word's value is: its high half counts, its low half is the index.
    pub fn of(word: Word) -> Link
        ensures count { result.count ≡ word.value / 2 ^ 32 }
        ensures end { result.end ≡ word.value % 2 ^ 32 }
    {
        let value = word.value();
        Link {
            count: (value >> 32) as u32,
            end: (value & 0xffff_ffff) as u32,
        }
    }

    /// The link as a word.
    pub fn word(self, tag: Tag) -> Word
        requires { tag ≢ Tag.Int }
        ensures { result ≡ record { tag = tag; value = self.count * 2 ^ 32 + self.end } }
    {
        Word::of(tag, (u64::from(self.count) << 32) | u64::from(self.end))
    }

    /// Whether a frame of this many slots and two more words can end there, at most at an index.
    pub fn is_frame_within(self, most: usize) -> bool
        ensures { IsTrue result ↔ ((self.end ≤ most) × (self.count ≤ self.end - 2)) }
    {
        self.end as usize <= most && self.count <= self.end.saturating_sub(2)
    }
}
