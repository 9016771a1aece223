//! Holes: cells that are filled once by whoever they are passed to.
ghost use Rattle.std.specs.Prelude.{◌≡◌, ◌-◌, ◌<◌, ◌++◌, ◌∷◌, [], Some, length, slice_get, slice_set, IfOk, OnOk};
ghost use Rattle.tag_word.specs.Tagged.{Tagged};
ghost use Rattle.machine_store.specs.Areas.{blank_word, ref_word};
ghost use Rattle.machine_store.specs.Derefs.{Derefs};
ghost use Rattle.bam_machine.specs.Holes.{Fills};

use crate::engine::Engine;
use crate::halt::Halt;
use crate::tags::{has_tag, is_hole};
use bam_link::image::Image;
use tag_word::tag::Tag;
use tag_word::word::Word;

impl<'a> Engine<'a> {
    /// Appends a hole, and puts a reference to it into a register.
    #[inline(always)]
    pub fn hole(&mut self, into: u16) -> Result<(), Halt>
        ensures pushed { OnOk result (self.new.store.heap ≡ self.old.store.heap ++ blank_word ∷ []) }
        ensures named { OnOk result (self.new.registers.words
            ≡ slice_set self.old.registers.words into (ref_word (length self.old.store.heap))) }
    {
        let index = self.store.heap_len();
        self.store.push_heap(Word::of(Tag::Hol, 0))?;
        self.registers.set(into, Word::of(Tag::Ref, index))
    }

    /// Fills the hole that a register names with another register's term.
    #[inline(always)]
    pub fn fill_register(&mut self, register: u16, with: u16) -> Result<(), Halt>
        ensures { (hole word target : Tagged) → slice_get self.old.registers.words register ≡ Some hole
            → slice_get self.old.registers.words with ≡ Some word → Derefs self.old.store.heap word target
            → OnOk result (Fills self.old.store self.new.store hole target) }
    {
        let word = self.registers.word(with)?;
        self.fill(register, word)
    }

    #[inline]
    pub fn fill_slot(&mut self, register: u16, with: u8) -> Result<(), Halt>
        ensures { (hole word target : Tagged) → slice_get self.old.registers.words register ≡ Some hole
            → slice_get self.old.store.env (self.old.store.frame - 3 - with) ≡ Some word
            → Derefs self.old.store.heap word target → OnOk result (Fills self.old.store self.new.store hole target) }
    {
        let word = self.slot_word(with)?;
        self.fill(register, word)
    }

    #[inline]
    pub fn fill_constant(
        &mut self,
        image: &Image,
        register: u16,
        constant: u32,
    ) -> Result<(), Halt> {
        let word = Engine::constant(image, constant)?;
        self.fill(register, word)
    }

    /// Fills the hole that a register names. An unbound cell that is higher gets a reference to the hole, which is unbound
    /// then, so that references name lower cells alone.
    #[inline(always)]
    fn fill(&mut self, register: u16, word: Word) -> Result<(), Halt>
        ensures { (hole target : Tagged) → slice_get self.old.registers.words register ≡ Some hole
            → Derefs self.old.store.heap word target
            → OnOk result (Fills self.old.store self.new.store hole target) }
    {
        let hole = self.registers.word(register)?;
        let index = self.hole_index(hole)?;
        let word = self.deref(word)?;
        if has_tag(word, Tag::Ref) && word.value() > index {
            return self.join(index, word.value(), hole);
        }
        self.put_cell(index, word)
    }

    /// Makes a hole and a higher unbound cell one variable: the hole is unbound then, and that cell gets a reference to it. It is
    /// a call of its own, since few fills come here, and the run's loop is faster without it.
    #[inline(never)]
    fn join(&mut self, index: u64, higher: u64, hole: Word) -> Result<(), Halt>
        ensures { OnOk result (self.new.store.heap
            ≡ slice_set (slice_set self.old.store.heap index hole) higher hole) }
    {
        self.put_cell(index, hole)?;
        self.put_cell(higher, hole)
    }

    /// The heap index of a hole that was not filled yet, or whose filling was undone by a failing: such a cell holds a
    /// reference to itself.
    #[inline(always)]
    fn hole_index(&self, hole: Word) -> Result<u64, Halt>
        ensures named { IfOk result (λ index. hole ≡ ref_word index) }
        ensures there { IfOk result (λ index. index < length self.now.store.heap) }
    {
        if !has_tag(hole, Tag::Ref) {
            return Err(Halt::Stray);
        }
        match self.store.cell(hole.value()) {
            Some(word) if is_hole(word) || word.is(hole) => Ok(hole.value()),
            _ => Err(Halt::Stray),
        }
    }

    /// Puts a word into a cell, so that a failing undoes it.
    #[inline(always)]
    fn put_cell(&mut self, index: u64, word: Word) -> Result<(), Halt>
        ensures { OnOk result (self.new.store.heap ≡ slice_set self.old.store.heap index word) }
    {
        self.store.trail_cell(index)?;
        self.store.set_cell(index, word)?;
        Ok(())
    }
}
