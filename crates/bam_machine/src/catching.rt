//! Catchers, and terms that are raised.
use crate::ball::copy_ball;
use crate::engine::Engine;
use crate::halt::Halt;
use aq_term::atom::Atom;
use bam_link::image::Image;
use machine_terms::error_term::raise_instantiation;
use tag_word::tag::Tag;
use tag_word::word::Word;

/// How many values an arity has in the word of a functor.
const ARITIES: u64 = 256;

impl<'a> Engine<'a> {
    /// Makes a catcher that keeps the registers below a number, whose balls go on at a place.
    pub fn catch(&mut self, registers: u16, ball: u32) -> Result<(), Halt> {
        let kept = self.registers.below(registers).ok_or(Halt::Stray)?;
        let label = Word::of(Tag::Cod, u64::from(ball));
        let back = Word::of(Tag::Cod, self.back as u64);
        self.store.push_catcher(kept, label, back)?;
        Ok(())
    }

    /// Puts the innermost catcher out of force.
    pub fn uncatch(&mut self) -> Result<(), Halt> {
        self.store.leave()?;
        Ok(())
    }

    pub fn raise_register(&mut self, register: u16) -> Result<(), Halt> {
        let word = self.registers.get(register)?;
        self.raise(word)
    }

    pub fn raise_slot(&mut self, slot: u8) -> Result<(), Halt> {
        let word = self.slot(slot)?;
        self.raise(word)
    }

    pub fn raise_constant(&mut self, image: &Image, constant: u32) -> Result<(), Halt> {
        let word = Engine::constant(image, constant)?;
        self.raise(word)
    }

    /// Raises a term, or that it is a variable.
    fn raise(&mut self, word: Word) -> Result<(), Halt> {
        let word = self.deref(word)?;
        if word.tag() == Tag::Ref {
            let outcome = raise_instantiation(&mut self.store);
            return Err(self.halt_of(outcome));
        }
        self.ball = word;
        Err(Halt::Raises)
    }

    /// What the line of a ball that nothing catches tells: of `error(T,U)` the term T, and else the ball itself.
    pub fn reported(&self, ball: Word) -> Word {
        if ball.tag() != Tag::Str {
            return ball;
        }
        let error = u64::from(Atom::ERROR.number) * ARITIES + 2;
        match self.store.cell(ball.value()) {
            Some(functor) if functor.is(Word::of(Tag::Fun, error)) => self
                .store
                .cell(ball.value().saturating_add(1))
                .unwrap_or(ball),
            _ => ball,
        }
    }

    /// Takes the innermost catcher's state up again, with a copy of the ball on its heap and in the register behind those
    /// that it keeps, and goes on at its label.
    pub fn caught(&mut self, heap_limit: u64, left: &mut u64) -> Result<(), Halt> {
        let (copy, caught) = copy_ball(
            &mut self.store,
            self.registers.all(),
            self.ball,
            heap_limit,
            left,
        )?;
        let number = u16::try_from(caught.kept).ok().ok_or(Halt::Stray)?;
        self.registers.set(number, copy)?;
        self.place = caught.label.value() as usize;
        self.back = caught.back.value() as usize;
        Ok(())
    }
}
