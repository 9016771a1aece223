ghost use Rattle.std.specs.Prelude.{◌≡◌, ◌≤◌, ◌+◌, ◌++◌, ◌∷◌, [], OnOk, OnErr};
ghost use Rattle.unify_special.specs.Steps.{moves_of, moves_of_line, step_of, steps_of, with_step};

use crate::label::label_line;
use crate::opened::Opened;
use crate::picture::Picture;
use aq_term::memory::Memory;
use bam_code::line::Line;
use bam_code::lines::Lines;
use bam_code::signature::Signature;
use std::alloc::Global;

/// The first register that holds no argument.
pub const FIRST_FREE: u16 = 64;

/// The lines of a procedure so far, and the numbers that its further lines may take. Where numbers run out the last one is given
/// again and again; such code is rejected by the verifier.
#[derive(Debug, Drop)]
pub struct Draft {
    pub lines: Lines,
    /// The first register from which on all are free. Temporary registers are given back by setting it back.
    pub register: u16,
    /// The first label that the procedure does not use yet.
    pub label: u32,
    /// The label that is due behind the next test of a term, for lines that go there after a test of their own.
    pub tested: Option<u32>,
    /// The registers that are looked into, innermost last.
    opened: Vec<Opened>,
    alloc: Global,
}

impl Draft {
    /// A procedure without lines.
    pub fn new(alloc: Global) -> Draft
        ensures lines { result.lines ≡ [] }
        ensures label { result.label ≡ 0 }
        ensures register { result.register ≡ 64 }
    {
        Draft {
            lines: Lines::new(alloc),
            register: FIRST_FREE,
            label: 0,
            tested: None,
            opened: Vec::new(alloc),
            alloc,
        }
    }

    /// Writes a line. After want of memory the draft is as it was.
    #[tactic(auto, using(crate::proofs::MoreLines::steps_of_more, crate::proofs::MoreLines::moves_of_more))]
    pub fn line(&mut self, line: Line) -> Result<(), Memory>
        ensures ok { OnOk result (self.new.lines ≡ self.old.lines ++ line ∷ []) }
        ensures err { OnErr result (self.new.lines ≡ self.old.lines) }
        ensures register { self.new.register ≡ self.old.register }
        ensures label { self.new.label ≡ self.old.label }
        ensures steps { OnOk result (steps_of self.new.lines ≡ with_step (steps_of self.old.lines) (step_of line)) }
        ensures moves { OnOk result (moves_of self.new.lines ≡ moves_of self.old.lines + moves_of_line line) }
    {
        self.lines.push(line)
    }

    /// The first free register, which is taken.
    pub fn take_register(&mut self) -> u16
        ensures taken { result ≡ self.old.register }
        ensures rises { self.old.register ≤ self.new.register }
        ensures lines { self.new.lines ≡ self.old.lines }
        ensures label { self.new.label ≡ self.old.label }
    {
        let register = self.register;
        self.register = register.saturating_add(1);
        register
    }

    /// The first unused label, which is used from now on.
    pub fn take_label(&mut self) -> u32
        ensures taken { result ≡ self.old.label }
        ensures rises { self.old.label ≤ self.new.label }
        ensures lines { self.new.lines ≡ self.old.lines }
        ensures register { self.new.register ≡ self.old.register }
    {
        let label = self.label;
        self.label = label.saturating_add(1);
        label
    }

    /// The label behind a test: the one that is due there, or else the first unused one.
    pub fn take_tested(&mut self) -> u32
        ensures lines { self.new.lines ≡ self.old.lines }
        ensures register { self.new.register ≡ self.old.register }
    {
        match self.tested.take() {
            Some(label) => label,
            None => self.take_label(),
        }
    }

    /// Notes that a register is looked into from now on.
    pub fn open(&mut self, opened: Opened) -> Result<(), Memory>
        ensures lines { self.new.lines ≡ self.old.lines }
    {
        self.opened.push(opened)?;
        Ok(())
    }

    /// Notes that the register that was opened last is looked into no more.
    pub fn close(&mut self)
        ensures lines { self.new.lines ≡ self.old.lines }
    {
        let _last = self.opened.pop();
    }

    /// Writes a label of this number with what the picture says, and the registers that are looked into.
    pub fn label(
        &mut self,
        number: u32,
        signature: &Signature,
        picture: &Picture,
    ) -> Result<(), Memory>
        ensures register { self.new.register ≡ self.old.register }
        ensures label { self.new.label ≡ self.old.label }
        ensures steps { steps_of self.new.lines ≡ steps_of self.old.lines }
        ensures moves { moves_of self.new.lines ≡ moves_of self.old.lines }
    {
        let line = label_line(
            self.alloc,
            number,
            signature,
            picture,
            self.opened.as_slice(),
        )?;
        self.line(line)
    }

    /// Writes the label that is due behind the test before it, where one is.
    pub fn label_tested(&mut self, signature: &Signature, picture: &Picture) -> Result<(), Memory>
        ensures register { self.new.register ≡ self.old.register }
        ensures steps { steps_of self.new.lines ≡ steps_of self.old.lines }
        ensures moves { moves_of self.new.lines ≡ moves_of self.old.lines }
    {
        match self.tested.take() {
            Some(label) => self.label(label, signature, picture),
            None => Ok(()),
        }
    }

    /// Writes a label that no line names. Behind it no two places are known to hold one term but those that are marked with one
    /// argument.
    pub fn part(&mut self, signature: &Signature, picture: &Picture) -> Result<(), Memory>
        ensures register { self.new.register ≡ self.old.register }
        ensures steps { steps_of self.new.lines ≡ steps_of self.old.lines }
        ensures moves { moves_of self.new.lines ≡ moves_of self.old.lines }
    {
        let number = self.take_label();
        self.label(number, signature, picture)
    }
}
