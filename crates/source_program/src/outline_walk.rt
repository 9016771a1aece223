use crate::kernel_outline::{AuxiliaryKind, Item, ItemKind, KernelOutline};
use crate::outline_clause::OutlineClause;
use crate::variable_places::VariablePlaces;
use crate::variable_set::VariableSet;
use aq_term::memory::Memory;
use std::alloc::Global;

/// A predicate whose clauses are not all walked yet.
#[derive(Drop)]
struct PendingPredicate {
    /// The place of its item, or none for the predicate of the source clause.
    item: Option<usize>,
    /// The items up to here are inside it.
    end: usize,
    head: Vec<u32>,
    /// Whether the cuts in its clauses go back to where it was entered.
    owns_cuts: bool,
}

/// The clauses of an outline, one after the other: the source clause first, and the clauses of an auxiliary predicate after the
/// clause that calls it.
#[derive(Drop)]
pub struct OutlineWalk<'a> {
    alloc: Global,
    outline: &'a KernelOutline<'a>,
    places: VariablePlaces,
    text_places: VariablePlaces,
    heads: VariableSet,
    listed: VariableSet,
    pending: Vec<PendingPredicate>,
    branch: usize,
}

impl<'a> OutlineWalk<'a> {
    /// Before the first clause.
    pub fn new(alloc: Global, outline: &'a KernelOutline<'a>) -> Result<OutlineWalk<'a>, Memory> {
        let variables = outline.variables;
        let mut walk = OutlineWalk {
            alloc,
            outline,
            places: VariablePlaces::of(alloc, outline.occurrences.as_slice(), variables)?,
            text_places: VariablePlaces::of(alloc, outline.text.as_slice(), variables)?,
            heads: VariableSet::new(alloc, variables)?,
            listed: VariableSet::new(alloc, variables)?,
            pending: Vec::new(alloc),
            branch: 0,
        };
        walk.pending.push(PendingPredicate {
            item: None,
            end: outline.items.len(),
            head: Vec::from_slice(alloc, outline.head.as_slice())?,
            owns_cuts: true,
        })?;
        Ok(walk)
    }

    /// The greatest number of variables, the ball and the barrier left out, that are arguments of an auxiliary predicate which the
    /// clauses so far call.
    pub fn branch(&self) -> usize {
        self.branch
    }

    /// The clause that is the item at this place of the outline, or none where that is no clause. The places are asked for from 0 on, one
    /// after the other.
    pub fn clause_at(&mut self, at: usize) -> Result<Option<OutlineClause>, Memory> {
        match self.outline.items.get(at).copied() {
            Some(item) if matches!(item.kind, ItemKind::Clause) => self.take_clause(at, &item),
            _ => Ok(None),
        }
    }

    fn take_clause(&mut self, at: usize, item: &Item) -> Result<Option<OutlineClause>, Memory> {
        let Some(predicate) = self.predicate_at(at) else {
            return Ok(None);
        };
        let head = predicate.head.as_slice();
        let mut clause = OutlineClause::new(self.alloc, predicate.item, predicate.owns_cuts, head)?;
        self.heads.clear();
        for variable in head {
            self.heads.add(*variable);
        }
        self.pending.push(predicate)?;
        self.take_goals(at, item, &mut clause)?;
        Ok(Some(clause))
    }

    /// Takes the predicate off the pending ones whose clause stands at this place. Those that end before it are done.
    fn predicate_at(&mut self, at: usize) -> Option<PendingPredicate> {
        while let Some(predicate) = self.pending.pop() {
            if at < predicate.end {
                return Some(predicate);
            }
        }
        None
    }

    /// Takes the goals of the clause that is the item at this place.
    fn take_goals(
        &mut self,
        at: usize,
        item: &Item,
        clause: &mut OutlineClause,
    ) -> Result<(), Memory> {
        let items = self.outline.items.as_slice();
        let end = at.saturating_add(1).saturating_add(item.inside);
        let mut called = Vec::new(self.alloc);
        let mut next = at.saturating_add(1);
        while next < end && next < items.len() {
            let goal = items[next];
            next = match goal.kind {
                ItemKind::Auxiliary(kind) => {
                    let predicate = self.call_auxiliary(next, &goal, kind, item, clause)?;
                    let after = predicate.end;
                    called.push(predicate)?;
                    after.max(next + 1)
                }
                _ => {
                    self.take_goal(next, &goal, clause)?;
                    next + 1
                }
            };
        }
        while let Some(predicate) = called.pop() {
            self.pending.push(predicate)?;
        }
        Ok(())
    }

    /// Adds the goal that is the item at this place to the clause. It calls no auxiliary predicate.
    fn take_goal(&self, at: usize, goal: &Item, clause: &mut OutlineClause) -> Result<(), Memory> {
        let variables = self.outline.between(goal.first, goal.last);
        match goal.kind {
            ItemKind::Unify(left, _) => clause.add(at, variables, Some(left), false, goal.nodes),
            ItemKind::Builtin(_, _)
            | ItemKind::Fail
            | ItemKind::Throw(_)
            | ItemKind::ThrowAgain(_) => clause.add(at, variables, None, false, goal.nodes),
            ItemKind::Call(_, _) => clause.add(at, variables, None, true, goal.nodes),
            ItemKind::Commit => {
                clause.uses_depth = true;
                clause.add(at, variables, None, false, 0)
            }
            ItemKind::Cut => {
                clause.use_cut();
                clause.add(at, variables, None, false, 0)
            }
            ItemKind::Auxiliary(_) | ItemKind::Clause | ItemKind::Inlined => Ok(()),
        }
    }

    /// Adds the call of the auxiliary predicate at this place to the clause, which is the item `around`, and gives the predicate.
    fn call_auxiliary(
        &mut self,
        at: usize,
        goal: &Item,
        kind: AuxiliaryKind,
        around: &Item,
        clause: &mut OutlineClause,
    ) -> Result<PendingPredicate, Memory> {
        let arguments = self.arguments_of(goal, around)?;
        self.branch = self.branch.max(arguments.len());
        let mut nodes = arguments.len() as u64;
        if goal.cuts && !kind.owns_cuts() {
            clause.use_cut();
            if !clause.owns_cuts {
                nodes = nodes.saturating_add(1);
            }
        }
        clause.add(at, arguments.as_slice(), None, true, nodes)?;
        Ok(PendingPredicate {
            item: Some(at),
            end: at.saturating_add(1).saturating_add(goal.inside),
            head: self.head_of(kind, arguments)?,
            owns_cuts: kind.owns_cuts(),
        })
    }

    /// The head of an auxiliary predicate that is called with these arguments.
    fn head_of(&self, kind: AuxiliaryKind, arguments: Vec<u32>) -> Result<Vec<u32>, Memory> {
        let AuxiliaryKind::Handler(ball) = kind else {
            return Ok(arguments);
        };
        let mut head = vec![in self.alloc; ball]?;
        head.extend_from_slice(arguments.as_slice())?;
        Ok(head)
    }

    /// The variables that stand both inside an item of a clause and elsewhere in that clause, in order of first occurrence in the
    /// text of the item. The smaller of the two places is gone through, so that nested items take no longer than the text.
    fn arguments_of(&mut self, goal: &Item, clause: &Item) -> Result<Vec<u32>, Memory> {
        let inside = goal.last.saturating_sub(goal.first);
        let whole = clause.last.saturating_sub(clause.first);
        self.listed.clear();
        if inside <= whole / 2 {
            self.list_inside(goal, clause)
        } else {
            self.list_around(goal, clause)
        }
    }

    /// Lists those variables inside the item that stand elsewhere.
    fn list_inside(&mut self, goal: &Item, clause: &Item) -> Result<Vec<u32>, Memory> {
        let mut arguments = Vec::new(self.alloc);
        for variable in self.outline.text_of(goal) {
            if self.listed.add(*variable) && self.stands_outside(*variable, goal, clause) {
                arguments.push(*variable)?;
            }
        }
        Ok(arguments)
    }

    fn stands_outside(&self, variable: u32, goal: &Item, clause: &Item) -> bool {
        self.heads.has(variable)
            || self
                .places
                .stands_between(variable, clause.first, goal.first)
            || self.places.stands_between(variable, goal.last, clause.last)
    }

    /// Lists those variables of the head and of the clause around the item that stand inside it.
    fn list_around(&mut self, goal: &Item, clause: &Item) -> Result<Vec<u32>, Memory> {
        let mut found = Vec::new(self.alloc);
        let before = self.outline.between(clause.first, goal.first);
        self.find(before, goal, &mut found)?;
        let behind = self.outline.between(goal.last, clause.last);
        self.find(behind, goal, &mut found)?;
        let head = match self.pending.last() {
            Some(predicate) => Vec::from_slice(self.alloc, predicate.head.as_slice())?,
            None => Vec::new(self.alloc),
        };
        self.find(head.as_slice(), goal, &mut found)?;
        found.sort_unstable();
        self.variables_at(found.as_slice())
    }

    /// Finds the first places, in the text of the item, of those of these variables that were not listed yet.
    fn find(
        &mut self,
        variables: &[u32],
        goal: &Item,
        found: &mut Vec<usize>,
    ) -> Result<(), Memory> {
        for variable in variables {
            if self.listed.add(*variable) {
                let place = self
                    .text_places
                    .first_between(*variable, goal.text_first, goal.text_last);
                if let Some(place) = place {
                    found.push(place)?;
                }
            }
        }
        Ok(())
    }

    /// The variables at these places of the text.
    fn variables_at(&self, places: &[usize]) -> Result<Vec<u32>, Memory> {
        let mut variables = Vec::with_capacity(self.alloc, places.len())?;
        for place in places {
            if let Some(variable) = self.outline.text.get(*place) {
                variables.push(*variable)?;
            }
        }
        Ok(variables)
    }
}
