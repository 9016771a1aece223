//! Instructions that go on at one of several places.
use crate::engine::Engine;
use crate::execute::target;
use crate::halt::Halt;
use crate::tags::has_tag;
use bam_link::image::Image;
use tag_word::tag::Tag;
use tag_word::word::Word;

impl<'a> Engine<'a> {
    /// Where the run goes on by the tag of a register's word.
    #[inline]
    pub fn switch(&self, image: &Image, register: u16, table: u32) -> Result<usize, Halt> {
        let word = self.registers.word(register)?;
        target(place_by_tag(image, table, word).ok_or(Halt::Stray)?)
    }

    /// Whether a register's word is a constant.
    #[inline]
    pub fn is_constant(&self, image: &Image, register: u16, constant: u32) -> Result<bool, Halt> {
        let word = self.registers.word(register)?;
        let constant = Engine::constant(image, constant)?;
        if word.is(constant) {
            return Ok(true);
        }
        if !is_direct(word.tag()) {
            return Err(Halt::Stray);
        }
        Ok(false)
    }

    /// Whether a register's word is a structure of a functor.
    #[inline]
    pub fn has_functor(&self, image: &Image, register: u16, functor: u32) -> Result<bool, Halt> {
        let word = self.registers.word(register)?;
        let functor = Engine::constant(image, functor)?;
        if !is_direct(word.tag()) {
            return Err(Halt::Stray);
        }
        Ok(has_tag(word, Tag::Str) && self.cell(word.value())?.is(functor))
    }
}

/// Where a switch goes with a word. List cells and atoms, which are the most, are told by the bits of their tags alone.
#[inline]
fn place_by_tag(image: &Image, table: u32, word: Word) -> Option<u32> {
    if has_tag(word, Tag::Lst) {
        return image.switch_place(table, Tag::Lst);
    }
    if has_tag(word, Tag::Atm) {
        return image.switch_place(table, Tag::Atm);
    }
    image.switch_place(table, word.tag())
}

/// Whether a word of this tag stands for a term that is no variable.
#[inline]
pub fn is_direct(tag: Tag) -> bool {
    matches!(tag, Tag::Atm | Tag::Int | Tag::Lst | Tag::Str)
}
