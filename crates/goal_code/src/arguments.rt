ghost use Rattle.std.specs.Prelude.{◌≡◌, ◌++◌, OnOk, IfOk, length, take};
ghost use Rattle.goal_code.specs.Passed.{depth_operands, hole_lines, holes_for, operand_for, operands_for, register_for};
ghost use Rattle.unify_special.specs.Places.{source_of};
ghost use Rattle.unify_special.specs.Steps.{steps_of};

use crate::signature::success_by;
use crate::writer::Writer;
use aq_term::memory::Memory;
use aq_term::proc_name::ProcName;
use aq_term::term::Term;
use bam_code::hole_type::HoleType;
use bam_code::line::Line;
use bam_code::source::Source;
use flow_equations::predicate_facts::PredicateFacts;
use type_lattice::fact::Fact;
use unify_special::fact_types::hole_type;
use unify_special::operand::{move_to, source};
use unify_special::place::Place;

/// What is put into the register of an argument.
#[derive(Clone, Copy, Debug, PartialEq, Eq)]
pub enum Operand {
    /// The word that stands there.
    Word(Source),
    /// What is in the cell to which the slot of this number refers.
    Boxed(u8),
    /// A new hole, for what the callee fills in.
    Hole(HoleType),
}

impl Writer<'_> {
    /// What the arguments of a call are, in order. Where the callee has a barrier that the call does not name, it is the own depth.
    #[tactic(auto, using(crate::proofs::SingleGroups::operands_front, crate::proofs::SingleGroups::operands_all))]
    pub fn operands(
        &self,
        name: ProcName,
        arguments: &[Term],
        callee: &PredicateFacts,
    ) -> Result<Vec<Operand>, Memory>
        ensures { IfOk result (λ made. take (length arguments.now) made.items
            ≡ operands_for self.now.picture.places arguments.now callee.now.success) }
    {
        let mut operands = Vec::with_capacity(self.alloc, usize::from(name.width))?;
        self.push_operands(arguments, callee.success.as_slice(), &mut operands)?;
        if arguments.len() >= usize::from(name.width) {
            return Ok(operands);
        }
        self.push_depth(&mut operands)?;
        Ok(operands)
    }

    /// Puts the own depth at the end, where it stands somewhere.
    fn push_depth(&self, operands: &mut Vec<Operand>) -> Result<(), Memory>
        ensures { OnOk result (operands.new.items
            ≡ operands.old.items ++ depth_operands (source_of self.now.picture.depth)) }
    {
        if let Some(depth) = source(self.picture.depth) {
            operands.push(Operand::Word(depth))?;
        }
        Ok(())
    }

    /// Puts what these arguments are at the end, of which this is so where the callee succeeds.
    fn push_operands(
        &self,
        arguments: &[Term],
        successes: &[Fact],
        operands: &mut Vec<Operand>,
    ) -> Result<(), Memory>
        ensures { OnOk result (operands.new.items
            ≡ operands.old.items ++ operands_for self.now.picture.places arguments.now successes.now) }
    {
        for (number, argument) in arguments.iter().enumerate() {
            operands.push(self.operand(argument, success_by(successes.get(number))))?;
        }
        Ok(())
    }

    /// What an argument is, of which this is so where the callee succeeds. A variable that stands nowhere is a result of the callee.
    fn operand(&self, argument: &Term, success: Fact) -> Operand
        ensures { result ≡ operand_for self.now.picture.places argument.now success }
    {
        match argument {
            Term::Int(value) => Operand::Word(Source::Int(*value)),
            Term::Atom(name) => Operand::Word(Source::Atom(*name)),
            Term::Var(variable) => match self.picture.places.get(*variable) {
                Place::Nowhere => Operand::Hole(hole_type(success)),
                Place::Register(register) => Operand::Word(Source::Register(register)),
                Place::Slot(slot) => Operand::Word(Source::Slot(slot)),
                Place::Boxed(slot) => Operand::Boxed(slot),
            },
            // a compound is no argument of a call
            Term::Compound(_, _) => Operand::Hole(hole_type(success)),
        }
    }

    /// Puts all arguments into their registers, the holes last. Between the first hole and the call only lines stand that are accepted
    /// beside a hole.
    pub fn pass(&mut self, operands: &[Operand]) -> Result<(), Memory>
        ensures steps { steps_of self.new.draft.lines ≡ steps_of self.old.draft.lines }
        ensures holes { OnOk result (hole_lines self.new.draft.lines
            ≡ hole_lines self.old.draft.lines ++ holes_for operands.now) }
    {
        let moved = self.move_away(operands)?;
        for (number, operand) in operands.iter().enumerate() {
            self.pass_value(argument_register(number), *operand, moved.as_slice())?;
        }
        self.make_holes(operands)
    }

    /// Makes a new hole for each argument that is passed as one.
    fn make_holes(&mut self, operands: &[Operand]) -> Result<(), Memory>
        ensures lines { OnOk result (self.new.draft.lines ≡ self.old.draft.lines ++ holes_for operands.now) }
        ensures holes { OnOk result (hole_lines self.new.draft.lines
            ≡ hole_lines self.old.draft.lines ++ holes_for operands.now) }
        ensures steps { steps_of self.new.draft.lines ≡ steps_of self.old.draft.lines }
    {
        for (number, operand) in operands.iter().enumerate() {
            if let Operand::Hole(holds) = operand {
                self.line(Line::Hole {
                    register: argument_register(number),
                    holds: *holds,
                })?;
            }
        }
        Ok(())
    }

    /// Moves what stands in the register of another argument to a temporary register. The answer has for each argument register the
    /// temporary one.
    fn move_away(&mut self, operands: &[Operand]) -> Result<Vec<Option<u16>>, Memory>
        ensures steps { steps_of self.new.draft.lines ≡ steps_of self.old.draft.lines }
        ensures holes { hole_lines self.new.draft.lines ≡ hole_lines self.old.draft.lines }
    {
        let mut moved = vec![in self.alloc; None; operands.len()]?;
        for (number, operand) in operands.iter().enumerate() {
            if let Operand::Word(Source::Register(from)) = operand {
                if usize::from(*from) != number {
                    self.move_one_away(*from, &mut moved)?;
                }
            }
        }
        Ok(moved)
    }

    fn move_one_away(&mut self, from: u16, moved: &mut Vec<Option<u16>>) -> Result<(), Memory>
        ensures steps { steps_of self.new.draft.lines ≡ steps_of self.old.draft.lines }
        ensures holes { hole_lines self.new.draft.lines ≡ hole_lines self.old.draft.lines }
    {
        if let Some(place) = moved.get_mut(usize::from(from)) {
            if place.is_none() {
                let register = self.draft.take_register();
                *place = Some(register);
                self.line(move_to(register, Source::Register(from)))?;
            }
        }
        Ok(())
    }

    /// Puts a value into the register of an argument. One that stands there stays.
    fn pass_value(
        &mut self,
        register: u16,
        operand: Operand,
        moved: &[Option<u16>],
    ) -> Result<(), Memory>
        ensures steps { steps_of self.new.draft.lines ≡ steps_of self.old.draft.lines }
        ensures holes { hole_lines self.new.draft.lines ≡ hole_lines self.old.draft.lines }
    {
        match operand {
            Operand::Word(Source::Register(from)) if from == register => Ok(()),
            Operand::Word(from) => self.line(move_to(register, where_moved(from, moved))),
            Operand::Boxed(slot) => self.line(Line::Deref {
                register,
                from: Source::Slot(slot),
            }),
            Operand::Hole(_) => Ok(()),
        }
    }
}

/// Where a word stands after the moves to temporary registers.
fn where_moved(from: Source, moved: &[Option<u16>]) -> Source {
    let Source::Register(register) = from else {
        return from;
    };
    match moved.get(usize::from(register)) {
        Some(Some(temporary)) => Source::Register(*temporary),
        _ => from,
    }
}

/// The register of an argument.
pub fn argument_register(number: usize) -> u16
    ensures { result ≡ register_for number }
{
    u16::try_from(number).unwrap_or(u16::MAX)
}
