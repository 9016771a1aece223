ghost use Rattle.std.specs.Prelude.{◌≡◌, ◌∷◌, [], OnOk, MatchOption};
ghost use Rattle.prolog_reader.specs.Machine.{most_of};
ghost use Rattle.prolog_reader.specs.Frames.{frames_of};

use crate::frame::Frame;
use crate::limits::GREATEST;
use aq_term::memory::Memory;
use std::alloc::Global;

/// What was begun and is not whole yet. `frames_of` has the frames, the newest first.
#[derive(Debug, Drop)]
pub struct Stack {
    pub frames: Vec<Frame>,
}

impl Stack {
    pub fn new(alloc: Global) -> Stack
        ensures { frames_of result ≡ [] }
    {
        Stack {
            frames: Vec::new(alloc),
        }
    }

    pub fn push(&mut self, frame: Frame) -> Result<(), Memory>
        ensures { OnOk result (frames_of self.new ≡ frame ∷ frames_of self.old) }
    {
        self.frames.push(frame)?;
        Ok(())
    }

    /// Takes the newest frame off.
    pub fn pop(&mut self) -> Option<Frame>
        ensures { MatchOption result ((frames_of self.old ≡ []) × (frames_of self.new ≡ [])) (λ frame. frames_of self.old ≡ frame ∷ frames_of self.new) }
    {
        self.frames.pop()
    }

    /// The greatest priority of the term that is read now.
    pub fn most(&self) -> u16
        ensures { result ≡ most_of (frames_of self.now) }
    {
        match self.frames.last() {
            Some(frame) => frame.most(),
            None => GREATEST,
        }
    }
}
