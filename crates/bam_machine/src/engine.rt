ghost use Rattle.std.specs.Prelude.{◌≡◌, ◌-◌, List, Some, IfOk, IsOk, OnOk, slice_get, take};
ghost use Rattle.tag_word.specs.Tagged.{Tagged};
ghost use Rattle.machine_store.specs.Areas.{with_choice};
ghost use Rattle.machine_store.specs.Derefs.{Derefs};
ghost use Rattle.machine_store.specs.Stands.{HasChoiceWithin, Restores};

use crate::halt::Halt;
use crate::registers::Registers;
use crate::tags::{has_tag, is_hole};
use aq_term::atoms::Atoms;
use bam_link::image::Image;
use bam_link::operand::Operand;
use machine_store::restored::Restored;
use machine_store::store::Store;
use machine_store::stray::Stray;
use tag_word::tag::Tag;
use tag_word::word::Word;

/// What instructions work on: the areas and registers, the place of the next instruction, the return place, and the term
/// that is raised. Each instruction is a method; the files that hold them are named for their groups. A method answers a
/// `Halt` where the run does not simply go on, and one that counts visits takes how many are left.
#[derive(Drop)]
pub struct Engine<'a> {
    pub atoms: &'a Atoms,
    pub store: Store,
    pub registers: Registers,
    pub place: usize,
    pub back: usize,
    pub ball: Word,
}

impl<'a> Engine<'a> {
    /// The word of a slot, which is that of an unfilled hole where the slot is unset.
    #[inline]
    pub fn slot_word(&self, number: u8) -> Result<Word, Halt>
        ensures { IfOk result (λ word. slice_get self.now.store.env (self.now.store.frame - 3 - number) ≡ Some word) }
    {
        self.store.slot(u64::from(number)).ok_or(Halt::Stray)
    }

    /// The word of a slot that is set.
    #[inline]
    pub fn slot(&self, number: u8) -> Result<Word, Halt>
        ensures { IfOk result (λ word. slice_get self.now.store.env (self.now.store.frame - 3 - number) ≡ Some word) }
    {
        let word = self.slot_word(number)?;
        if is_hole(word) {
            return Err(Halt::Stray);
        }
        Ok(word)
    }

    /// A constant or an entry of the pool.
    #[inline]
    pub fn constant(image: &Image, number: u32) -> Result<Word, Halt> {
        image.constant(number).ok_or(Halt::Stray)
    }

    /// The word of an operand.
    #[inline]
    pub fn operand(&self, image: &Image, operand: Operand) -> Result<Word, Halt> {
        match operand {
            Operand::Register(number) => self.registers.get(number),
            Operand::Slot(number) => self.slot(number),
            Operand::Constant(number) => Engine::constant(image, number),
        }
    }

    /// The word of a cell that is set.
    #[inline]
    pub fn cell(&self, index: u64) -> Result<Word, Halt>
        ensures { IfOk result (λ word. slice_get self.now.store.heap index ≡ Some word) }
    {
        match self.store.cell(index) {
            Some(word) if !is_hole(word) => Ok(word),
            _ => Err(Halt::Stray),
        }
    }

    /// A word, once references are followed.
    #[inline(always)]
    pub fn deref(&self, word: Word) -> Result<Word, Halt>
        ensures { (target : Tagged) → Derefs self.now.store.heap word target → IfOk result (λ value. value ≡ target) }
    {
        if !has_tag(word, Tag::Ref) && !is_hole(word) {
            return Ok(word);
        }
        self.store.deref(word).ok_or(Halt::Stray)
    }

    /// Makes a choice that keeps the registers below a number.
    pub fn keep(&mut self, registers: u16, alternative: Word, back: Word) -> Result<(), Halt>
        ensures { OnOk result (self.new ≡ record self.old {
          store = with_choice (take registers self.old.registers.words) alternative back self.old.store;
        }) }
    {
        let kept = self.registers.below(registers).ok_or(Halt::Stray)?;
        self.store.push_choice(kept, alternative, back)?;
        Ok(())
    }

    /// Restores the newest choice, with the registers that it keeps.
    pub fn restore(&mut self) -> Result<Restored, Stray>
        ensures there { HasChoiceWithin 0 self.old.store → IsOk result }
        ensures restores { IfOk result (λ restored. (before now : List Tagged)
            × Restores self.old.store self.new.store before now restored.alternative restored.back) }
    {
        match self.store.restore(self.registers.all()) {
            Ok(restored) => Ok(restored),
            Err(stray) => Err(stray),
        }
    }
}
