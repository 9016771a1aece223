ghost use Rattle.std.specs.Prelude.{◌≡◌, ◌+◌, ◌++◌, ◌∷◌, [], OnOk, OnErr};
ghost use Rattle.goal_code.specs.Passed.{hole_lines};
ghost use Rattle.goal_code.specs.StepCounts.{choices_at, choices_of, counted, ends_at, ends_of, returns_at, returns_of};
ghost use Rattle.unify_special.specs.Steps.{moves_of, moves_of_line, step_of, steps_of, with_step};

use crate::liveness::takes_depth;
use crate::prepared::Prepared;
use aq_term::memory::Memory;
use bam_code::line::Line;
use bam_code::lines::Lines;
use bam_code::signature::Signature;
use flow_equations::env::first_env;
use flow_equations::fact_list::FactList;
use flow_equations::facts::Facts;
use flow_equations::predicate_facts::PredicateFacts;
use kernel_ir::kernel_clause::KernelClause;
use kernel_ir::kernel_predicate::KernelPredicate;
use std::alloc::Global;
use unify_special::draft::{Draft, FIRST_FREE};
use unify_special::ground_pool::GroundPool;
use unify_special::picture::Picture;
use unify_special::place::Place;
use unify_special::place_list::PlaceList;

/// A procedure while its code is written, and the clause that is under way.
#[derive(Drop)]
pub struct Writer<'a> {
    pub(crate) alloc: Global,
    /// The facts of all predicates.
    pub(crate) facts: &'a Facts,
    pub(crate) predicate: &'a KernelPredicate,
    /// The facts of the procedure's own predicate.
    pub(crate) own: &'a PredicateFacts,
    pub(crate) signature: &'a Signature,
    /// The register that holds the number of choices at the entry, where a clause wants it.
    pub(crate) mark: Place,
    pub(crate) pool: GroundPool,
    pub(crate) draft: Draft,
    pub(crate) picture: Picture,
    /// The variables that have been in the head or in a goal since the last call, each as often as it was there.
    pub(crate) recent: Vec<u32>,
    /// How many slots of the frame are in use.
    pub(crate) slots: u16,
}

impl<'a> Writer<'a> {
    /// A procedure without lines, at its entry.
    pub fn new(
        alloc: Global,
        facts: &'a Facts,
        predicate: &'a KernelPredicate,
        own: &'a PredicateFacts,
        signature: &'a Signature,
        pool: GroundPool,
    ) -> Writer<'a>
        ensures lines { result.draft.lines ≡ [] }
        ensures own { result.own.now ≡ own.now }
        ensures predicate { result.predicate.now ≡ predicate.now }
    {
        Writer {
            alloc,
            facts,
            predicate,
            own,
            signature,
            mark: mark_of(predicate),
            pool,
            draft: Draft::new(alloc),
            picture: Picture {
                facts: FactList::new(alloc),
                places: PlaceList::new(alloc),
                frame: None,
                depth: Place::Nowhere,
            },
            recent: Vec::new(alloc),
            slots: 0,
        }
    }

    /// The lines, how many labels they may name, and the pool.
    pub fn finish(self) -> (Lines, u32, GroundPool)
        ensures { result.0 ≡ self.entry.draft.lines }
    {
        let Writer {
            alloc: _,
            facts: _,
            predicate: _,
            own: _,
            signature: _,
            mark: _,
            pool,
            draft,
            picture: _,
            recent: _,
            slots: _,
        } = self;
        let labels = draft.label;
        (draft.lines, labels, pool)
    }

    /// The number of arguments.
    pub fn width(&self) -> u8 {
        self.predicate.name.width
    }

    /// Writes a line.
    #[tactic(auto, using(crate::proofs::MoreSteps::counted_more, crate::proofs::MoreSteps::holes_more))]
    pub fn line(&mut self, line: Line) -> Result<(), Memory>
        ensures lines { OnOk result (self.new.draft.lines ≡ self.old.draft.lines ++ line ∷ []) }
        ensures err { OnErr result (self.new.draft.lines ≡ self.old.draft.lines) }
        ensures steps { OnOk result (steps_of self.new.draft.lines
            ≡ with_step (steps_of self.old.draft.lines) (step_of line)) }
        ensures moves { OnOk result (moves_of self.new.draft.lines ≡ moves_of self.old.draft.lines + moves_of_line line) }
        ensures choices { OnOk result (choices_of self.new.draft.lines
            ≡ choices_of self.old.draft.lines + counted choices_at (step_of line)) }
        ensures returns { OnOk result (returns_of self.new.draft.lines
            ≡ returns_of self.old.draft.lines + counted returns_at (step_of line)) }
        ensures ends { OnOk result (ends_of self.new.draft.lines
            ≡ ends_of self.old.draft.lines + counted ends_at (step_of line)) }
        ensures holes { OnOk result (hole_lines self.new.draft.lines
            ≡ hole_lines self.old.draft.lines ++ hole_lines (line ∷ [])) }
        ensures picture { self.new.picture ≡ self.old.picture }
        ensures own { self.new.own.now ≡ self.old.own.now }
        ensures predicate { self.new.predicate.now ≡ self.old.predicate.now }
    {
        self.draft.line(line)
    }

    /// Goes back to the entry of the procedure, for a clause with so many variables: each argument stands in its register.
    pub fn enter(&mut self, variables: u32) -> Result<(), Memory>
        ensures lines { self.new.draft.lines ≡ self.old.draft.lines }
        ensures own { self.new.own.now ≡ self.old.own.now }
        ensures predicate { self.new.predicate.now ≡ self.old.predicate.now }
    {
        let width = self.width();
        let count = variables.max(u32::from(width));
        let barrier = self.predicate.barrier;
        self.picture = Picture {
            facts: first_env(self.alloc, &self.own.call, barrier, count)?,
            places: head_places(self.alloc, width, count)?,
            frame: None,
            depth: self.mark,
        };
        self.recent = Vec::new(self.alloc);
        self.slots = 0;
        self.draft.register = FIRST_FREE;
        Ok(())
    }

    /// Writes a label where the picture holds.
    pub fn label(&mut self, number: u32) -> Result<(), Memory>
        ensures steps { steps_of self.new.draft.lines ≡ steps_of self.old.draft.lines }
        ensures moves { moves_of self.new.draft.lines ≡ moves_of self.old.draft.lines }
    {
        self.draft.label(number, self.signature, &self.picture)
    }

    /// Forgets the registers of variables that neither the goal of this number nor a later one has.
    pub fn forget(
        &mut self,
        clause: &Prepared,
        variables: &[u32],
        from: usize,
    ) -> Result<(), Memory>
        ensures { self.new.draft.lines ≡ self.old.draft.lines }
    {
        for variable in variables {
            self.recent.push(*variable)?;
            if !clause.liveness.wants(*variable, from) {
                self.leave_register(*variable);
            }
        }
        if !clause.liveness.wants_depth(from) {
            self.leave_depth();
        }
        Ok(())
    }

    /// The variable stands nowhere where it stood in a register. Slots keep what they hold.
    pub fn leave_register(&mut self, variable: u32)
        ensures { self.new.draft.lines ≡ self.old.draft.lines }
    {
        if let Place::Register(_) = self.picture.places.get(variable) {
            self.picture.places.set(variable, Place::Nowhere);
        }
    }

    /// The depth stands nowhere where it stood in a register.
    pub fn leave_depth(&mut self)
        ensures { self.new.draft.lines ≡ self.old.draft.lines }
    {
        if let Place::Register(_) = self.picture.depth {
            self.picture.depth = Place::Nowhere;
        }
    }
}

/// The register behind the arguments, where a clause of the predicate wants the number of choices at the entry.
fn mark_of(predicate: &KernelPredicate) -> Place {
    if predicate.clauses.as_slice().iter().any(wants_depth) {
        Place::Register(u16::from(predicate.name.width))
    } else {
        Place::Nowhere
    }
}

fn wants_depth(clause: &KernelClause) -> bool {
    clause.goals.as_slice().iter().any(takes_depth)
}

/// The places of a clause's variables at the entry: those of the head stand in the registers of their numbers.
fn head_places(alloc: Global, width: u8, count: u32) -> Result<PlaceList, Memory> {
    let mut places = PlaceList::nowhere(alloc, count as usize)?;
    for number in 0..width {
        places.set(u32::from(number), Place::Register(u16::from(number)));
    }
    Ok(places)
}
