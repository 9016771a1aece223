//! Calls, frames and choices.
ghost use Rattle.std.specs.Prelude.{◌≡◌, ◌+◌, ◌≤◌};
ghost use Rattle.machine_store.specs.Areas.{place_word};

use crate::counts::Counts;
use crate::engine::Engine;
use crate::halt::Halt;
use tag_word::tag::Tag;
use tag_word::word::Word;

/// The word of a place.
#[inline]
pub fn place_of(place: usize) -> Word
    ensures { result ≡ place_word place }
{
    Word::of(Tag::Cod, place as u64)
}

impl<'a> Engine<'a> {
    /// Goes to a procedure, which returns to the next place.
    #[inline]
    pub fn call(&mut self, place: u32, next: usize) -> usize
        ensures goes { result ≡ place }
        ensures returns { self.new ≡ record self.old { back = next } }
    {
        self.back = next;
        place as usize
    }

    /// Makes a frame of this many unset slots.
    #[inline]
    pub fn allocate(&mut self, slots: u16) -> Result<(), Halt> {
        self.store
            .push_frame(u64::from(slots), place_of(self.back))?;
        Ok(())
    }

    /// Gives the newest frame up.
    #[inline]
    pub fn deallocate(&mut self) -> Result<(), Halt> {
        let back = self.store.pop_frame().ok_or(Halt::Stray)?;
        self.back = back.value() as usize;
        Ok(())
    }

    /// Makes a choice that keeps the registers below a number, and counts it.
    #[inline]
    pub fn try_next(
        &mut self,
        registers: u16,
        alternative: u32,
        counts: &mut Counts,
    ) -> Result<(), Halt>
        ensures left { counts.new.left ≡ counts.old.left }
        ensures tried { counts.new.tried ≤ counts.old.tried + 1 }
    {
        self.keep(
            registers,
            place_of(alternative as usize),
            place_of(self.back),
        )?;
        counts.tried = counts.tried.saturating_add(1);
        Ok(())
    }

    /// Gives the newest choice another alternative.
    #[inline]
    pub fn retry(&mut self, alternative: u32) -> Result<(), Halt> {
        self.store.set_alternative(place_of(alternative as usize))?;
        Ok(())
    }

    /// Removes the newest choice.
    #[inline]
    pub fn trust(&mut self) -> Result<(), Halt> {
        let choices = self.store.choices();
        if choices == 0 {
            return Err(Halt::Stray);
        }
        self.store.drop_choices(choices - 1)?;
        Ok(())
    }

    /// Goes back to the newest choice and answers the place of its alternative. Where there is none, or where it is a catcher,
    /// nothing is done.
    #[inline]
    pub fn go_back(&mut self) -> Result<usize, Halt> {
        if self.store.choices() == 0 || self.store.newest_catches() {
            return Err(Halt::Fails);
        }
        let restored = self.restore()?;
        self.back = restored.back.value() as usize;
        Ok(restored.alternative.value() as usize)
    }
}
