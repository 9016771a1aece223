ghost use Rattle.std.specs.Prelude.{◌≡◌, ◌≤◌, ◌+◌, IsTrue, IfOk, IfSome, IsSome, vec_len, OnOk, length};
ghost use Rattle.std.specs.List.{list_all};
ghost use Rattle.goal_code.specs.GoalLines.{is_plain_clause};
ghost use Rattle.goal_code.specs.StepCounts.{OnlyReturns, choices_at, choices_of, counted, ends_at, ends_of, returns_at, returns_of};
ghost use Rattle.bam_code.specs.declared.switch_target.SwitchTarget.TheVariants as switch;
ghost use Rattle.determinism.specs.Distinct.{are_distinct};
ghost use Rattle.determinism.specs.Plans.{IsPlanOf, selects_bound};
ghost use Rattle.determinism.specs.Selection.{is_bound};
ghost use Rattle.goal_code.specs.Alone.{EachIsAlone, IsAlone};
ghost use Rattle.goal_code.specs.declared.selection.Sharing.TheVariants as sharing;
ghost use Rattle.type_lattice.specs.Facts.{below};
ghost use Rattle.type_lattice.specs.declared.fact.Fact.TheVariants as fact;
ghost use Rattle.unify_special.specs.Steps.{step_of, steps_of};

use crate::clause::Tested;
use crate::kind::{Kind, kind_type, opened, tested_type};
use crate::selection::{ClauseLabels, Group, Groups, Selection, Sharing, begins};
use crate::writer::Writer;
use aq_term::memory::Memory;
use bam_code::constant::Constant;
use bam_code::line::Line;
use bam_code::source::Source;
use bam_code::switch_target::SwitchTarget;
use bam_code::target::Target;
use determinism::key::Key;
use determinism::predicate_plan::Plan;
use flow_equations::env::learn;
use kernel_ir::kernel_clause::KernelClause;
use type_lattice::fact::{Fact, below};
use unify_special::label::{label_items, label_line};
use unify_special::opened::Opened;
use unify_special::place::Place;

/// Where the parts of a selection begin.
#[derive(Clone, Copy)]
struct Entrances {
    reference: SwitchTarget,
    atom: Target,
    integer: Target,
    list: Target,
    structure: Target,
}

impl Writer<'_> {
    /// Writes the clauses of the predicate: which are tried, and the code of each.
    #[tactic(auto, using(crate::proofs::DetPlans::det_several))]
    pub fn clauses(&mut self, plan: &Plan) -> Result<(), Memory>
        ensures ended { length plan.now.keys ≡ length self.old.predicate.now.clauses
            → OnOk result (ends_of self.old.draft.lines + length self.old.predicate.now.clauses
            ≤ ends_of self.new.draft.lines) }
        ensures plain { length plan.now.keys ≡ length self.old.predicate.now.clauses
            → IsTrue (list_all is_plain_clause self.old.predicate.now.clauses)
            → OnOk result (OnlyReturns (length self.old.predicate.now.clauses) self.old.draft.lines self.new.draft.lines) }
        ensures det { IsPlanOf self.old.predicate.now self.old.own.now.call plan.now → IsTrue plan.now.det
            → choices_of self.new.draft.lines ≡ choices_of self.old.draft.lines }
    {
        self.enter(0)?;
        if let Place::Register(register) = self.mark {
            self.line(Line::Mark { register })?;
        }
        let clauses = self.predicate.clauses.as_slice();
        if clauses.len() == 1 {
            return self.clause(&clauses[0], None);
        }
        self.several(clauses, plan)
    }

    /// Writes several clauses, or none: which are tried, and the code of each.
    fn several(&mut self, clauses: &[KernelClause], plan: &Plan) -> Result<(), Memory>
        ensures ended { length plan.now.keys ≡ length clauses.now
            → OnOk result (ends_of self.old.draft.lines + length clauses.now ≤ ends_of self.new.draft.lines) }
        ensures plain { length plan.now.keys ≡ length clauses.now → IsTrue (list_all is_plain_clause clauses.now)
            → OnOk result (OnlyReturns (length clauses.now) self.old.draft.lines self.new.draft.lines) }
        ensures det { IsTrue plan.now.det → IsTrue (selects_bound self.old.own.now.call plan.now.selected)
            → IsTrue (are_distinct plan.now.keys)
            → choices_of self.new.draft.lines ≡ choices_of self.old.draft.lines }
    {
        match self.selection(plan)? {
            Some(selection) => self.select(clauses, &selection),
            None => self.try_each(clauses),
        }
    }

    /// How many registers a choice keeps: those of the arguments and of the depth.
    fn kept(&self) -> u16 {
        let width = u16::from(self.width());
        match self.mark {
            Place::Nowhere => width,
            _ => width.saturating_add(1),
        }
    }

    /// The clauses by their keys, where each has one at the selected argument and that is no result.
    fn selection(&mut self, plan: &Plan) -> Result<Option<Selection>, Memory>
        ensures lines { self.new.draft.lines ≡ self.old.draft.lines }
        ensures own { self.new.own.now ≡ self.old.own.now }
        ensures labels { IfOk result (λ found. IfSome found (λ made. vec_len made.labels ≡ length plan.now.keys)) }
        ensures argument { IfOk result (λ found. IfSome found (λ made. plan.now.selected ≡ Some made.argument)) }
        ensures alone { IsTrue plan.now.det → IfOk result (λ found. IfSome found (λ made. EachIsAlone made)) }
        ensures found { IsTrue (selects_bound self.old.own.now.call plan.now.selected) → IsTrue (are_distinct plan.now.keys)
            → IfOk result (λ found. IsSome found) }
    {
        let Some(argument) = plan.selected else {
            return Ok(None);
        };
        if self.own.call.fact(u32::from(argument)) == Fact::Out {
            return Ok(None);
        }
        let mut selection = Selection::new(self.alloc, argument, sharing_of(plan));
        for key in plan.keys.as_slice() {
            match key {
                Some(key) => selection.add(*key, self.clause_labels())?,
                None => return Ok(None),
            }
        }
        Ok(Some(selection))
    }

    fn clause_labels(&mut self) -> ClauseLabels
        ensures lines { self.new.draft.lines ≡ self.old.draft.lines }
        ensures own { self.new.own.now ≡ self.old.own.now }
    {
        ClauseLabels {
            begin: self.draft.take_label(),
            tested: self.draft.take_label(),
        }
    }

    /// Writes clauses that are tried one after another.
    fn try_each(&mut self, clauses: &[KernelClause]) -> Result<(), Memory>
        ensures ended { OnOk result (ends_of self.old.draft.lines + length clauses.now ≤ ends_of self.new.draft.lines) }
        ensures plain { IsTrue (list_all is_plain_clause clauses.now)
            → OnOk result (OnlyReturns (length clauses.now) self.old.draft.lines self.new.draft.lines) }
    {
        let mut label = 0;
        for (place, clause) in clauses.iter().enumerate() {
            self.enter(0)?;
            label = self.alternative(place, clauses.len(), label, &[])?;
            self.clause(clause, None)?;
        }
        Ok(())
    }

    /// Begins the alternative at a place of a row of so many: the first one makes the choice, and the last one removes it. It has this
    /// label, and the answer is that of the next one. All of them are tried with these registers looked into.
    fn alternative(
        &mut self,
        place: usize,
        count: usize,
        label: u32,
        opened: &[Opened],
    ) -> Result<u32, Memory>
        ensures ends { ends_of self.new.draft.lines ≡ ends_of self.old.draft.lines }
        ensures returns { returns_of self.new.draft.lines ≡ returns_of self.old.draft.lines }
        ensures choices { choices_of self.new.draft.lines ≤ choices_of self.old.draft.lines + 1 }
        ensures last { count ≤ place + 1 → choices_of self.new.draft.lines ≡ choices_of self.old.draft.lines }
    {
        if place > 0 {
            self.alternative_label(label, opened)?;
        }
        if place.saturating_add(1) >= count {
            return self.last_alternative(place, label);
        }
        let next = self.draft.take_label();
        let line = choice_line(place, self.kept(), next);
        self.line(line)?;
        Ok(next)
    }

    /// Removes the choice at the last alternative. A row of one makes none.
    fn last_alternative(&mut self, place: usize, label: u32) -> Result<u32, Memory>
        ensures ends { ends_of self.new.draft.lines ≡ ends_of self.old.draft.lines }
        ensures returns { returns_of self.new.draft.lines ≡ returns_of self.old.draft.lines }
        ensures choices { choices_of self.new.draft.lines ≡ choices_of self.old.draft.lines }
    {
        if place > 0 {
            self.line(Line::Trust)?;
        }
        Ok(label)
    }

    fn alternative_label(&mut self, number: u32, opened: &[Opened]) -> Result<(), Memory>
        ensures { steps_of self.new.draft.lines ≡ steps_of self.old.draft.lines }
    {
        let items = label_items(self.alloc, self.signature, &self.picture, opened)?;
        self.line(Line::Alt {
            number,
            frame: None,
            items,
        })
    }

    /// Writes the selection of clauses by the tag and the value of an argument, and then each clause behind its label.
    fn select(&mut self, clauses: &[KernelClause], selection: &Selection) -> Result<(), Memory>
        ensures ended { length clauses.now ≤ vec_len selection.now.labels
            → OnOk result (ends_of self.old.draft.lines + length clauses.now ≤ ends_of self.new.draft.lines) }
        ensures plain { length clauses.now ≤ vec_len selection.now.labels → IsTrue (list_all is_plain_clause clauses.now)
            → OnOk result (OnlyReturns (length clauses.now) self.old.draft.lines self.new.draft.lines) }
        ensures det { EachIsAlone selection.now → IsTrue (is_bound self.old.own.now.call selection.now.argument)
            → choices_of self.new.draft.lines ≡ choices_of self.old.draft.lines }
    {
        let register = u16::from(selection.argument);
        let call = self.own.call.fact(u32::from(selection.argument));
        if !below(call, Fact::Direct) {
            self.line(Line::Deref {
                register,
                from: Source::Register(register),
            })?;
        }
        let entrances = self.entrances(call, selection);
        self.line(Line::Switch {
            register,
            reference: entrances.reference,
            atom: entrances.atom,
            integer: entrances.integer,
            list: entrances.list,
            structure: entrances.structure,
        })?;
        self.parts(selection, entrances)?;
        self.labelled(clauses, selection)
    }

    /// Writes clauses behind their labels.
    fn labelled(&mut self, clauses: &[KernelClause], selection: &Selection) -> Result<(), Memory>
        ensures ended { length clauses.now ≤ vec_len selection.now.labels
            → OnOk result (ends_of self.old.draft.lines + length clauses.now ≤ ends_of self.new.draft.lines) }
        ensures plain { length clauses.now ≤ vec_len selection.now.labels → IsTrue (list_all is_plain_clause clauses.now)
            → OnOk result (OnlyReturns (length clauses.now) self.old.draft.lines self.new.draft.lines) }
        ensures choices { choices_of self.new.draft.lines ≡ choices_of self.old.draft.lines }
    {
        for (place, clause) in clauses.iter().enumerate() {
            let Some(labels) = selection.labels.as_slice().get(place) else {
                return Ok(());
            };
            self.enter(0)?;
            self.label(labels.begin)?;
            let tested = Tested {
                argument: selection.argument,
                label: labels.tested,
            };
            self.clause(clause, Some(tested))?;
        }
        Ok(())
    }

    /// Labels for the parts of a selection that there are.
    fn entrances(&mut self, call: Fact, selection: &Selection) -> Entrances
        ensures lines { self.new.draft.lines ≡ self.old.draft.lines }
        ensures never { IsTrue (below call fact.Nonvar) → result.reference ≡ switch.Never }
    {
        Entrances {
            reference: if below(call, Fact::Nonvar) {
                SwitchTarget::Never
            } else {
                SwitchTarget::Label(self.draft.take_label())
            },
            atom: self.chain_label(&selection.atoms),
            integer: self.chain_label(&selection.integers),
            list: self.list_label(&selection.lists),
            structure: self.chain_label(&selection.structures),
        }
    }

    /// A label for a chain of tests, where there is one.
    fn chain_label(&mut self, groups: &Groups) -> Target
        ensures { self.new.draft.lines ≡ self.old.draft.lines }
    {
        match groups.as_slice() {
            [] => Target::Fails,
            _ => Target::Label(self.draft.take_label()),
        }
    }

    /// The label of the one clause for lists, or one for the row of several.
    fn list_label(&mut self, groups: &Groups) -> Target
        ensures { self.new.draft.lines ≡ self.old.draft.lines }
    {
        match groups.as_slice() {
            [] => Target::Fails,
            [group, ..] => match group.labels.as_slice() {
                [only] => Target::Label(*only),
                _ => Target::Label(self.draft.take_label()),
            },
        }
    }

    /// Writes the parts of a selection: all clauses for a variable, and then those for each kind of key.
    fn parts(&mut self, selection: &Selection, entrances: Entrances) -> Result<(), Memory>
        ensures ends { ends_of self.new.draft.lines ≡ ends_of self.old.draft.lines }
        ensures returns { returns_of self.new.draft.lines ≡ returns_of self.old.draft.lines }
        ensures det { EachIsAlone selection.now → entrances.reference ≡ switch.Never
            → choices_of self.new.draft.lines ≡ choices_of self.old.draft.lines }
    {
        let argument = selection.argument;
        if let SwitchTarget::Label(number) = entrances.reference {
            self.label(number)?;
            let begins = begins(self.alloc, selection.labels.as_slice())?;
            self.row(begins.as_slice(), &[])?;
        }
        self.chain(entrances.atom, argument, Kind::Atom, &selection.atoms)?;
        self.chain(
            entrances.integer,
            argument,
            Kind::Integer,
            &selection.integers,
        )?;
        self.list_row(entrances.list, argument, &selection.lists)?;
        self.chain(
            entrances.structure,
            argument,
            Kind::Structure,
            &selection.structures,
        )
    }

    /// Writes a row of alternatives that go to the clauses of these labels, with these registers looked into.
    fn row(&mut self, labels: &[u32], opened: &[Opened]) -> Result<(), Memory>
        ensures ends { ends_of self.new.draft.lines ≡ ends_of self.old.draft.lines }
        ensures returns { returns_of self.new.draft.lines ≡ returns_of self.old.draft.lines }
        ensures single { length labels.now ≤ 1 → choices_of self.new.draft.lines ≡ choices_of self.old.draft.lines }
    {
        let mut alternative = 0;
        for (place, label) in labels.iter().enumerate() {
            alternative = self.alternative(place, labels.len(), alternative, opened)?;
            self.line(Line::Jump(Target::Label(*label)))?;
        }
        Ok(())
    }

    /// Writes the row of several clauses for lists.
    #[tactic(auto, using(crate::proofs::SingleGroups::single_at))]
    fn list_row(&mut self, at: Target, argument: u8, groups: &Groups) -> Result<(), Memory>
        ensures ends { ends_of self.new.draft.lines ≡ ends_of self.old.draft.lines }
        ensures returns { returns_of self.new.draft.lines ≡ returns_of self.old.draft.lines }
        ensures single { IsAlone groups.now → choices_of self.new.draft.lines ≡ choices_of self.old.draft.lines }
    {
        match (at, groups.as_slice()) {
            (Target::Label(number), [group, ..]) if group.labels.len() > 1 => {
                self.enter_part(argument, Kind::List)?;
                self.kind_label(number, argument, Kind::List)?;
                self.tested_row(argument, group)
            }
            _ => Ok(()),
        }
    }

    /// Writes a test for each key of a kind, with the row of its clauses behind it.
    #[tactic(auto, using(crate::proofs::SingleGroups::single_at))]
    fn chain(&mut self, at: Target, argument: u8, kind: Kind, groups: &Groups) -> Result<(), Memory>
        ensures ends { ends_of self.new.draft.lines ≡ ends_of self.old.draft.lines }
        ensures returns { returns_of self.new.draft.lines ≡ returns_of self.old.draft.lines }
        ensures single { IsAlone groups.now → choices_of self.new.draft.lines ≡ choices_of self.old.draft.lines }
    {
        let Target::Label(mut label) = at else {
            return Ok(());
        };
        self.enter_part(argument, kind)?;
        for (place, group) in groups.as_slice().iter().enumerate() {
            self.kind_label(label, argument, kind)?;
            let other = if place.saturating_add(1) < groups.as_slice().len() {
                label = self.draft.take_label();
                Target::Label(label)
            } else {
                Target::Fails
            };
            self.key_test(argument, group, other)?;
            self.tested_row(argument, group)?;
        }
        Ok(())
    }

    /// Writes the test of an argument for a key.
    fn key_test(&mut self, argument: u8, group: &Group, other: Target) -> Result<(), Memory>
        ensures { steps_of self.new.draft.lines ≡ steps_of self.old.draft.lines }
    {
        self.line(key_line(u16::from(argument), group.key, other))
    }

    /// Writes a row of alternatives that go to the clauses of a group, behind the test of its key.
    fn tested_row(&mut self, argument: u8, group: &Group) -> Result<(), Memory>
        ensures ends { ends_of self.new.draft.lines ≡ ends_of self.old.draft.lines }
        ensures returns { returns_of self.new.draft.lines ≡ returns_of self.old.draft.lines }
        ensures single { vec_len group.now.labels ≤ 1 → choices_of self.new.draft.lines ≡ choices_of self.old.draft.lines }
    {
        let call = self.own.call.fact(u32::from(argument));
        let opened = [opened(argument, tested_type(group.key, call))];
        self.row(group.labels.as_slice(), &opened)
    }

    /// Goes back to the entry, for calls with an argument of this kind.
    fn enter_part(&mut self, argument: u8, kind: Kind) -> Result<(), Memory>
        ensures lines { self.new.draft.lines ≡ self.old.draft.lines }
    {
        self.enter(0)?;
        let facts = &mut self.picture.facts;
        match kind {
            Kind::Atom | Kind::Integer => learn(facts, u32::from(argument), Fact::Ground),
            Kind::List | Kind::Structure => learn(facts, u32::from(argument), Fact::Nonvar),
        }
        Ok(())
    }

    /// Writes a label where the selected argument is of this kind, and all else is as at the entry.
    fn kind_label(&mut self, number: u32, argument: u8, kind: Kind) -> Result<(), Memory>
        ensures { steps_of self.new.draft.lines ≡ steps_of self.old.draft.lines }
    {
        let call = self.own.call.fact(u32::from(argument));
        let opened = [opened(argument, kind_type(kind, call))];
        let line = label_line(self.alloc, number, self.signature, &self.picture, &opened)?;
        self.line(line)
    }
}

/// Clauses of which a call fits at most one share no key.
fn sharing_of(plan: &Plan) -> Sharing
    ensures { IsTrue plan.now.det → result ≡ sharing.Never }
{
    if plan.det {
        Sharing::Never
    } else {
        Sharing::Possible
    }
}

/// The line that makes a choice, at the first place of a row, or gives it another alternative.
fn choice_line(place: usize, registers: u16, next: u32) -> Line
    ensures ends { counted ends_at (step_of result) ≡ 0 }
    ensures returns { counted returns_at (step_of result) ≡ 0 }
    ensures choices { counted choices_at (step_of result) ≤ 1 }
{
    let alternative = Target::Label(next);
    match place {
        0 => Line::Try {
            registers,
            alternative,
        },
        _ => Line::Retry(alternative),
    }
}

/// The line that goes on where a register holds a term of this key.
fn key_line(register: u16, key: Key, other: Target) -> Line
    ensures { step_of result ≡ None }
{
    match key {
        Key::Int(value) => Line::Match {
            register,
            constant: Constant::Int(value),
            other,
        },
        Key::Atom(name) => Line::Match {
            register,
            constant: Constant::Atom(name),
            other,
        },
        Key::Functor(functor) => Line::Functor {
            register,
            functor,
            other,
        },
    }
}
