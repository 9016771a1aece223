ghost use Rattle.std.specs.Prelude.{◌≡◌, Some, replicate, slice_get, slice_set, take, IfOk, IfSome, OnOk};
ghost use Rattle.machine_store.specs.Areas.{blank_word};

use crate::halt::Halt;
use crate::tags::is_hole;
use tag_word::tag::Tag;
use tag_word::word::Word;

/// How many registers a machine has.
const REGISTERS: usize = 1024;

/// The registers. An unset one holds the word of an unfilled hole.
#[derive(Drop)]
pub struct Registers {
    words: [Word; REGISTERS],
}

impl Registers {
    /// All registers, unset.
    pub fn new() -> Registers
        ensures { result.words ≡ replicate 1024 blank_word }
    {
        Registers {
            words: [Word::of(Tag::Hol, 0); REGISTERS],
        }
    }

    /// The word of a register, which is that of an unfilled hole where the register is unset.
    #[inline]
    pub fn word(&self, number: u16) -> Result<Word, Halt>
        ensures { IfOk result (λ word. slice_get self.now.words number ≡ Some word) }
    {
        let number = number as usize;
        if number >= REGISTERS {
            return Err(Halt::Stray);
        }
        Ok(self.words[number])
    }

    /// The word of a register that is set.
    #[inline]
    pub fn get(&self, number: u16) -> Result<Word, Halt>
        ensures { IfOk result (λ word. slice_get self.now.words number ≡ Some word) }
    {
        let word = self.word(number)?;
        if is_hole(word) {
            return Err(Halt::Stray);
        }
        Ok(word)
    }

    /// Puts a word into a register.
    #[inline]
    pub fn set(&mut self, number: u16, word: Word) -> Result<(), Halt>
        ensures { OnOk result (self.new.words ≡ slice_set self.old.words number word) }
    {
        let number = number as usize;
        if number >= REGISTERS {
            return Err(Halt::Stray);
        }
        self.words[number] = word;
        Ok(())
    }

    /// The words of the registers below a number, where there are so many.
    pub fn below(&self, count: u16) -> Option<&[Word]>
        ensures { IfSome result (λ words. words.now ≡ take count self.now.words) }
    {
        let count = count as usize;
        if count > REGISTERS {
            return None;
        }
        Some(&self.words[..count])
    }

    /// The words of all registers, to be written over.
    pub fn all(&mut self) -> &mut [Word] {
        let words = &mut self.words;
        &mut words[..]
    }
}
