ghost use Rattle.std.specs.Prelude.{◌≡◌, ◌≤◌, ◌<◌, IfOk, OnOk};
ghost use Rattle.flow_equations.specs.declared.progress.Progress.TheVariants as progress;
ghost use Rattle.flow_equations.specs.Prepared.{prepared};
ghost use Rattle.goal_code.specs.Passed.{KeepsOut, passed, passed_one};
ghost use Rattle.goal_code.specs.Signatures.{led_to};
ghost use Rattle.goal_code.specs.StepCounts.{choices_of, ends_of};
ghost use Rattle.unify_special.specs.Steps.{moves_of, steps_of};

use crate::arguments::{Operand, argument_register};
use crate::prepared::Prepared;
use crate::writer::Writer;
use aq_term::memory::Memory;
use aq_term::term::Term;
use bam_code::hole_type::HoleType;
use bam_code::line::Line;
use bam_code::place::Place as CodePlace;
use bam_code::source::Source;
use flow_equations::env::see;
use flow_equations::fact_list::FactList;
use flow_equations::occurrences::{goal_variables, variables_of_all};
use flow_equations::predicate_facts::PredicateFacts;
use flow_equations::progress::Progress;
use flow_equations::transfer::take;
use kernel_ir::kernel_goal::KernelGoal;
use std::mem;
use type_lattice::fact::Fact;
use unify_special::draft::FIRST_FREE;
use unify_special::place::Place;

/// Whether the places that hold what a call filled in are told apart from the cells behind them.
#[derive(Clone, Copy, Debug, PartialEq, Eq)]
enum Parting {
    Needless,
    Due,
}

impl Writer<'_> {
    /// Writes a call that returns to the clause. A predicate that is not listed does not succeed.
    pub fn call(
        &mut self,
        clause: &Prepared,
        number: usize,
        goal: &KernelGoal,
    ) -> Result<Progress, Memory>
        ensures choices { choices_of self.new.draft.lines ≡ choices_of self.old.draft.lines }
        ensures ends { ends_of self.old.draft.lines ≤ ends_of self.new.draft.lines }
        ensures ended { IfOk result (λ next. next ≡ progress.Ends
            → ends_of self.old.draft.lines < ends_of self.new.draft.lines) }
    {
        let KernelGoal::Call(name, arguments) = goal else {
            return Ok(Progress::GoesOn);
        };
        let Some(callee) = self.facts.find(name) else {
            return self.fail();
        };
        let behind = number.saturating_add(1);
        self.make_passed(goal, arguments.as_slice(), callee)?;
        self.take_frame(clause)?;
        let recent = self.take_recent(goal)?;
        self.save(clause, recent.as_slice(), behind)?;
        let operands = self.operands(*name, arguments.as_slice(), callee)?;
        self.pass(operands.as_slice())?;
        let parting = self.keep_results(clause, behind, arguments.as_slice(), &operands)?;
        self.line(Line::Call(*name))?;
        if callee.never_succeeds() {
            return self.fail();
        }
        self.lose_registers(recent.as_slice());
        let _goes_on = take(self.alloc, goal, &mut self.picture.facts, self.facts)?;
        if parting == Parting::Due {
            self.draft.part(self.signature, &self.picture)?;
        }
        Ok(Progress::GoesOn)
    }

    /// Makes a cell for each variable that is out and is in the call twice, or is an argument that the callee takes a value of.
    pub fn make_passed(
        &mut self,
        goal: &KernelGoal,
        arguments: &[Term],
        callee: &PredicateFacts,
    ) -> Result<(), Memory>
        ensures steps { steps_of self.new.draft.lines ≡ steps_of self.old.draft.lines }
        ensures moves { moves_of self.new.draft.lines ≡ moves_of self.old.draft.lines }
        ensures facts { OnOk result (self.new.picture.facts
            ≡ passed (prepared self.old.picture.facts goal.now) arguments.now callee.now.call) }
        ensures stays { OnOk result (KeepsOut self.new.picture.facts self.old.picture.places self.new.picture.places) }
    {
        self.make_ready(goal)?;
        see_passed(arguments, callee.call.as_slice(), &mut self.picture.facts);
        let variables = variables_of_all(self.alloc, arguments)?;
        self.make_cells(variables.as_slice())
    }

    /// The variables that have been in a goal since the last call, those of this one among them. From now on there are none.
    fn take_recent(&mut self, goal: &KernelGoal) -> Result<Vec<u32>, Memory>
        ensures { self.new.draft.lines ≡ self.old.draft.lines }
    {
        for variable in goal_variables(self.alloc, goal)?.as_slice() {
            self.recent.push(*variable)?;
        }
        Ok(mem::replace(&mut self.recent, Vec::new(self.alloc)))
    }

    /// Moves what stands in registers and is wanted behind a call to slots: the variables that the goal of this number or a later one
    /// has, holes of results among them, and the depth.
    fn save(&mut self, clause: &Prepared, recent: &[u32], from: usize) -> Result<(), Memory>
        ensures { steps_of self.new.draft.lines ≡ steps_of self.old.draft.lines }
    {
        for variable in recent {
            if clause.liveness.wants(*variable, from) {
                let before = self.picture.places.get(*variable);
                let place = self.saved(before)?;
                self.picture.places.set(*variable, place);
            }
        }
        if clause.liveness.wants_depth(from) {
            let before = self.picture.depth;
            self.picture.depth = self.saved(before)?;
        }
        Ok(())
    }

    /// Where a word stands that stood in this place, once it is moved to a slot from a register.
    fn saved(&mut self, place: Place) -> Result<Place, Memory>
        ensures { steps_of self.new.draft.lines ≡ steps_of self.old.draft.lines }
    {
        let Place::Register(register) = place else {
            return Ok(place);
        };
        Ok(Place::Slot(self.fill_slot(register)?))
    }

    /// Moves a register to the next slot.
    fn fill_slot(&mut self, register: u16) -> Result<u8, Memory>
        ensures { steps_of self.new.draft.lines ≡ steps_of self.old.draft.lines }
    {
        let slot = u8::try_from(self.slots).unwrap_or(u8::MAX);
        self.slots = self.slots.saturating_add(1);
        self.line(Line::Move {
            into: CodePlace::Slot(slot),
            from: Source::Register(register),
        })?;
        Ok(slot)
    }

    /// Keeps the holes of results of a call in slots, where their variables are wanted behind it. Such a variable is boxed. Where what
    /// is known of its word can rise, a label is due behind the call.
    fn keep_results(
        &mut self,
        clause: &Prepared,
        behind: usize,
        arguments: &[Term],
        operands: &Vec<Operand>,
    ) -> Result<Parting, Memory>
        ensures { steps_of self.new.draft.lines ≡ steps_of self.old.draft.lines }
    {
        let mut parting = Parting::Needless;
        for (number, (argument, operand)) in arguments.iter().zip(operands.as_slice()).enumerate() {
            if let (Term::Var(variable), Operand::Hole(holds)) = (argument, operand) {
                if clause.liveness.wants(*variable, behind) {
                    let slot = self.fill_slot(argument_register(number))?;
                    self.picture.places.set(*variable, Place::Boxed(slot));
                    parting = parting_of(parting, *holds);
                }
            }
        }
        Ok(parting)
    }

    /// Notes that a call has used all registers.
    fn lose_registers(&mut self, recent: &[u32])
        ensures { self.new.draft.lines ≡ self.old.draft.lines }
    {
        for variable in recent {
            self.leave_register(*variable);
        }
        self.leave_depth();
        self.draft.register = FIRST_FREE;
    }
}

/// Puts the variables of which a callee takes a value, at whose calls this is so, into cells where they were out.
fn see_passed(arguments: &[Term], calls: &[Fact], env: &mut FactList)
    ensures { env.new ≡ passed env.old arguments.now calls.now }
{
    for (place, argument) in arguments.iter().enumerate() {
        see_argument(argument, calls.get(place), env);
    }
}

/// Puts an argument of a call into a cell where it was out and is no result of the callee.
fn see_argument(argument: &Term, call: Option<&Fact>, env: &mut FactList)
    ensures { env.new ≡ passed_one env.old argument.now (led_to call.entry) }
{
    match (argument, call) {
        (Term::Var(_), Some(Fact::Out)) => {}
        (Term::Var(variable), _) => see(env, *variable),
        _ => {}
    }
}

/// Whether parting is due once a hole of this type is kept too.
fn parting_of(before: Parting, holds: HoleType) -> Parting {
    match holds {
        HoleType::Any | HoleType::Nonvar | HoleType::Direct => Parting::Due,
        HoleType::Full | HoleType::GroundDirect | HoleType::Ground => before,
    }
}
