//! Choices that are counted and removed.
use crate::engine::Engine;
use crate::halt::Halt;
use crate::tags::has_tag;
use tag_word::tag::Tag;
use tag_word::word::Word;

impl<'a> Engine<'a> {
    /// Puts the number of choices into a register.
    pub fn mark(&mut self, into: u16) -> Result<(), Halt> {
        let number = Word::of(Tag::Bar, self.store.choices());
        self.registers.set(into, number)
    }

    pub fn cut_register(&mut self, register: u16) -> Result<(), Halt> {
        let word = self.registers.word(register)?;
        self.cut_to(word)
    }

    pub fn cut_slot(&mut self, slot: u8) -> Result<(), Halt> {
        let word = self.slot_word(slot)?;
        self.cut_to(word)
    }

    /// Removes the choices past a number.
    fn cut_to(&mut self, word: Word) -> Result<(), Halt> {
        if !has_tag(word, Tag::Bar) {
            return Err(Halt::Stray);
        }
        self.store.drop_choices(word.value())?;
        Ok(())
    }
}
