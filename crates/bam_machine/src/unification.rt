//! Terms that are made equal, and terms that are compared for identity.
use crate::engine::Engine;
use crate::halt::Halt;
use crate::tags::has_tag;
use bam_code::sameness::Sameness;
use bam_link::image::Image;
use bam_link::operand::Pair;
use machine_unify::bind::bind;
use machine_unify::found::Found;
use machine_unify::same::same;
use machine_unify::unify::unify;
use tag_word::tag::Tag;
use tag_word::word::Word;

impl<'a> Engine<'a> {
    #[inline]
    pub fn bind_register(&mut self, register: u16, with: u16) -> Result<(), Halt> {
        let word = self.registers.word(with)?;
        self.bind(register, word)
    }

    #[inline]
    pub fn bind_slot(&mut self, register: u16, with: u8) -> Result<(), Halt> {
        let word = self.slot_word(with)?;
        self.bind(register, word)
    }

    #[inline]
    pub fn bind_constant(
        &mut self,
        image: &Image,
        register: u16,
        constant: u32,
    ) -> Result<(), Halt> {
        let word = Engine::constant(image, constant)?;
        self.bind(register, word)
    }

    /// Makes the unbound cell that a register names equal to a word.
    #[inline]
    fn bind(&mut self, register: u16, word: Word) -> Result<(), Halt> {
        let variable = self.registers.word(register)?;
        if !has_tag(variable, Tag::Ref) {
            return Err(Halt::Stray);
        }
        bind(&mut self.store, variable.value(), word)?;
        Ok(())
    }

    pub fn unify_register(&mut self, register: u16, with: u16, left: &mut u64) -> Result<(), Halt> {
        let word = self.registers.get(with)?;
        self.unify_with(register, word, left)
    }

    pub fn unify_slot(&mut self, register: u16, with: u8, left: &mut u64) -> Result<(), Halt> {
        let word = self.slot(with)?;
        self.unify_with(register, word, left)
    }

    pub fn unify_constant(
        &mut self,
        image: &Image,
        register: u16,
        constant: u32,
        left: &mut u64,
    ) -> Result<(), Halt> {
        let word = Engine::constant(image, constant)?;
        self.unify_with(register, word, left)
    }

    /// Unifies a register's term with a word's.
    pub fn unify_with(&mut self, register: u16, word: Word, left: &mut u64) -> Result<(), Halt> {
        let term = self.registers.get(register)?;
        match unify(&mut self.store, term, word, left) {
            Found::Yes => Ok(()),
            Found::No => Err(Halt::Fails),
            Found::Stopped => Err(Halt::OutOfSteps),
            Found::Full(area) => Err(Halt::Full(area)),
            Found::Stray => Err(Halt::Stray),
        }
    }

    /// Fails where two terms are not identical, or where they are, as is asked.
    pub fn same(
        &mut self,
        image: &Image,
        sameness: Sameness,
        pair: u32,
        left: &mut u64,
    ) -> Result<(), Halt> {
        let Pair {
            left: first,
            right: second,
        } = image.pair(pair).ok_or(Halt::Stray)?;
        let first = self.operand(image, first)?;
        let second = self.operand(image, second)?;
        match (same(&mut self.store, first, second, left), sameness) {
            (Found::Yes, Sameness::Same) | (Found::No, Sameness::Different) => Ok(()),
            (Found::Yes, Sameness::Different) | (Found::No, Sameness::Same) => Err(Halt::Fails),
            (Found::Stopped, _) => Err(Halt::OutOfSteps),
            (Found::Full(area), _) => Err(Halt::Full(area)),
            (Found::Stray, _) => Err(Halt::Stray),
        }
    }
}
