ghost use Rattle.std.specs.Prelude.{◌≡◌, ℕ, ◌+◌, ◌++◌, ◌<◌, ◌≤◌, All, Some, None, IfOk, OnOk, length, map, slice_index_or, true, false, if◌then◌else◌};
ghost use Rattle.std.specs.Option.{IfSome, is_some};
ghost use Rattle.aq_term.specs.PlainOf.{plain};
ghost use Rattle.kernel_form.specs.Own.{AreTermsBelow, IsGoalBelow, IsTermBelow};
ghost use Rattle.kernel_ir.specs.declared.kernel_goal.KernelGoal.TheVariants as kernel_goal;

use crate::clause_variables::ClauseVariables;
use aq_term::args0::Args0;
use aq_term::atom::Atom;
use aq_term::builtin::Builtin;
use aq_term::memory::Memory;
use aq_term::proc_name::ProcName;
use aq_term::term::Term;
use kernel_ir::kernel_goal::KernelGoal;
use kernel_ir::kernel_goals::KernelGoals;
use source_program::kernel_outline::{AuxiliaryKind, Item, ItemKind, KernelOutline};
use source_program::outline_clause::{OutlineClause, OutlineGoal};
use source_program::predicate_set::PredicateSet;
use std::alloc::Global;

/// A clause of an outline that becomes a kernel clause.
#[derive(Clone, Copy, Drop)]
pub struct ClauseForm<'a, 'b> {
    pub alloc: Global,
    /// The predicates that have clauses.
    pub defined: &'a PredicateSet,
    /// The name and the number of arguments of the source predicate.
    pub name: Atom,
    pub arity: u8,
    pub outline: &'b KernelOutline<'b>,
    /// The number of the auxiliary predicate that is the item at each place of the outline.
    pub parts: &'b [u32],
    pub clause: &'b OutlineClause,
}

impl ClauseForm<'_, '_> {
    /// The name of the predicate whose clause it is, with a barrier behind the other arguments of the head or without.
    pub fn own_name(&self, barrier: bool) -> Result<ProcName, Memory>
        ensures source { IfOk result (λ name. name.name ≡ self.now.name) }
        ensures width { IfOk result (λ name. name.width ≡ length self.now.clause.now.head.items + (if barrier then 1 else 0)) }
    {
        let part = match self.clause.predicate {
            None => 0,
            Some(at) => self.part_at(at),
        };
        self.name_of(part, self.clause.head.len() + usize::from(barrier))
    }

    /// Numbers the variables of the head. The answer is the number of the own barrier variable, which comes last.
    pub fn head(&self, variables: &mut ClauseVariables) -> Result<Option<u32>, Memory>
        ensures last { IfOk result (λ barrier. IfSome barrier (λ own. own + 1 ≡ variables.new)) }
        ensures below { IfOk result (λ barrier. IfSome barrier (λ own. own < variables.new)) }
        ensures width { IfOk result (λ barrier. variables.new ≡ length self.now.clause.now.head.items + (if is_some barrier then 1 else 0)) }
    {
        variables.begin(self.clause.head.as_slice())?;
        if !self.has_barrier() {
            return Ok(None);
        }
        let own = variables.further()?;
        Ok(Some(own))
    }

    /// The goals of the kernel clause, whose head is numbered with this barrier variable.
    pub fn goals(
        &self,
        barrier: Option<u32>,
        variables: &mut ClauseVariables,
    ) -> Result<KernelGoals, Memory>
        requires { IfSome barrier (λ own. own < variables.old) }
        ensures below { IfOk result (All (IsGoalBelow variables.new)) }
        ensures grows { OnOk result (variables.old ≤ variables.new) }
    {
        let mut goals = KernelGoals::new(self.alloc);
        let made = self.clause.goals.as_slice();
        for (place, goal) in made.iter().enumerate() {
            let next = made.get(place.saturating_add(1));
            let Some(goal) = self.goal(goal, next, barrier, variables)? else {
                continue;
            };
            goals.push(goal)?;
        }
        Ok(goals)
    }

    /// Whether the last argument of the head is a barrier.
    fn has_barrier(&self) -> bool
        ensures written { self.now.clause.now.predicate ≡ None → result ≡ false }
        ensures own { self.now.clause.now.owns_cuts ≡ true → result ≡ false }
    {
        match self.clause.predicate {
            None => false,
            Some(at) => match self.outline.items.get(at) {
                None => false,
                Some(item) => item.cuts && !self.clause.owns_cuts,
            },
        }
    }

    /// A goal, where `next` stands behind it and `barrier` is the own barrier variable. A handler is a part of the goal before it.
    fn goal(
        &self,
        goal: &OutlineGoal,
        next: Option<&OutlineGoal>,
        barrier: Option<u32>,
        variables: &mut ClauseVariables,
    ) -> Result<Option<KernelGoal>, Memory>
        requires { IfSome barrier (λ own. own < variables.old) }
        ensures below { IfOk result (λ made. IfSome made (IsGoalBelow variables.new)) }
        ensures grows { OnOk result (variables.old ≤ variables.new) }
    {
        let Some(item) = self.outline.items.get(goal.item) else {
            return Ok(None);
        };
        match item.kind {
            ItemKind::Unify(left, term) => Ok(Some(unify(left, term, variables)?)),
            ItemKind::Builtin(builtin, arguments) => {
                Ok(Some(self.builtin(builtin, arguments, goal, variables)?))
            }
            ItemKind::Call(name, arguments) => {
                Ok(Some(self.call(name, arguments, goal, variables)?))
            }
            ItemKind::Fail => Ok(Some(KernelGoal::Fail)),
            ItemKind::Throw(term) => Ok(Some(KernelGoal::Throw(variables.term(term)?))),
            ItemKind::ThrowAgain(ball) => {
                Ok(Some(KernelGoal::Throw(Term::Var(variables.number(ball)?))))
            }
            ItemKind::Commit => Ok(Some(KernelGoal::Cut)),
            ItemKind::Cut => Ok(Some(cut(barrier))),
            ItemKind::Auxiliary(kind) => {
                self.auxiliary(kind, item, goal, next, barrier, variables)
            }
            ItemKind::Clause | ItemKind::Inlined => Ok(None),
        }
    }

    /// A call of a predicate of the program, or of none.
    fn call(
        &self,
        name: Atom,
        arguments: &[Term],
        goal: &OutlineGoal,
        variables: &mut ClauseVariables,
    ) -> Result<KernelGoal, Memory>
        ensures below { IfOk result (IsGoalBelow variables.new) }
        ensures grows { OnOk result (variables.old ≤ variables.new) }
    {
        let placed = self.placed(arguments, self.clause.variables_of(goal), variables)?;
        let count = arguments.len();
        if !self.defined.has(name, count) {
            return Ok(KernelGoal::Undefined(name, Args0::from_vec(placed)));
        }
        let width = width_of(count)?;
        let called = ProcName {
            name,
            arity: width,
            part: 0,
            width,
        };
        Ok(KernelGoal::Call(called, Args0::from_vec(placed)))
    }

    fn builtin(
        &self,
        builtin: Builtin,
        arguments: &[Term],
        goal: &OutlineGoal,
        variables: &mut ClauseVariables,
    ) -> Result<KernelGoal, Memory>
        ensures below { IfOk result (IsGoalBelow variables.new) }
        ensures grows { OnOk result (variables.old ≤ variables.new) }
    {
        let (plain, evaluated) = split_evaluated(builtin, arguments);
        let mut placed = self.placed(plain, self.clause.variables_of(goal), variables)?;
        for argument in evaluated {
            placed.push(variables.term(argument)?)?;
        }
        Ok(KernelGoal::Builtin(builtin, Args0::from_vec(placed)))
    }

    /// Constants as they are, and for each other argument the next one of the goal's variables, which the outline lists.
    fn placed(
        &self,
        arguments: &[Term],
        listed: &[u32],
        variables: &mut ClauseVariables,
    ) -> Result<Vec<Term>, Memory>
        ensures below { IfOk result (λ placed. AreTermsBelow variables.new (map plain placed.items)) }
        ensures grows { OnOk result (variables.old ≤ variables.new) }
        ensures count { IfOk result (λ placed. length placed.items ≡ length arguments.now) }
    {
        let mut placed = Vec::with_capacity(self.alloc, arguments.len())?;
        let mut rest = listed.iter();
        for argument in arguments {
            let variable = match argument {
                Term::Var(_) | Term::Compound(_, _) => rest.next().copied(),
                Term::Int(_) | Term::Atom(_) => None,
            };
            placed.push(place(argument, variable, variables)?)?;
        }
        Ok(placed)
    }

    /// The call of an auxiliary predicate. What is guarded and its handler are one goal.
    fn auxiliary(
        &self,
        kind: AuxiliaryKind,
        item: &Item,
        goal: &OutlineGoal,
        next: Option<&OutlineGoal>,
        barrier: Option<u32>,
        variables: &mut ClauseVariables,
    ) -> Result<Option<KernelGoal>, Memory>
        requires { IfSome barrier (λ own. own < variables.old) }
        ensures below { IfOk result (λ made. IfSome made (IsGoalBelow variables.new)) }
        ensures grows { OnOk result (variables.old ≤ variables.new) }
    {
        match (kind, next) {
            (AuxiliaryKind::Guarded, Some(handler)) => {
                Ok(Some(self.catch(goal, handler, variables)?))
            }
            (AuxiliaryKind::Guarded, None) => Ok(None),
            (AuxiliaryKind::Handler(_), _) => Ok(None),
            (AuxiliaryKind::Construct, _) if item.cuts => {
                Ok(Some(self.with_barrier(goal, barrier, variables)?))
            }
            (AuxiliaryKind::Local | AuxiliaryKind::Construct, _) => {
                Ok(Some(self.local(goal, variables)?))
            }
        }
    }

    fn catch(
        &self,
        guarded: &OutlineGoal,
        handler: &OutlineGoal,
        variables: &mut ClauseVariables,
    ) -> Result<KernelGoal, Memory>
        ensures below { IfOk result (IsGoalBelow variables.new) }
        ensures grows { OnOk result (variables.old ≤ variables.new) }
    {
        let arguments = variables.numbers(self.clause.variables_of(guarded))?;
        let others = variables.numbers(self.clause.variables_of(handler))?;
        let first = self.name_of(self.part_at(guarded.item), arguments.len())?;
        let second = self.name_of(self.part_at(handler.item), others.len() + 1)?;
        Ok(KernelGoal::Catch(
            first,
            Args0::from_vec(arguments),
            second,
            Args0::from_vec(others),
        ))
    }

    /// The call of an auxiliary predicate without a barrier.
    fn local(
        &self,
        goal: &OutlineGoal,
        variables: &mut ClauseVariables,
    ) -> Result<KernelGoal, Memory>
        ensures below { IfOk result (IsGoalBelow variables.new) }
        ensures grows { OnOk result (variables.old ≤ variables.new) }
    {
        let arguments = variables.numbers(self.clause.variables_of(goal))?;
        let name = self.name_of(self.part_at(goal.item), arguments.len())?;
        Ok(KernelGoal::Call(name, Args0::from_vec(arguments)))
    }

    /// The call of an auxiliary predicate with a barrier, which is the own barrier, or where there is none the own depth.
    fn with_barrier(
        &self,
        goal: &OutlineGoal,
        barrier: Option<u32>,
        variables: &mut ClauseVariables,
    ) -> Result<KernelGoal, Memory>
        requires { IfSome barrier (λ own. own < variables.old) }
        ensures below { IfOk result (IsGoalBelow variables.new) }
        ensures grows { OnOk result (variables.old ≤ variables.new) }
    {
        let mut arguments = variables.numbers(self.clause.variables_of(goal))?;
        let name = self.name_of(self.part_at(goal.item), arguments.len() + 1)?;
        let Some(own) = barrier else {
            return Ok(KernelGoal::Call(name, Args0::from_vec(arguments)));
        };
        arguments.push(Term::Var(own))?;
        Ok(KernelGoal::Call(name, Args0::from_vec(arguments)))
    }

    /// The number of the auxiliary predicate that is the item at this place.
    fn part_at(&self, at: usize) -> u32
        ensures { result ≡ slice_index_or self.now.parts.now at 0 }
    {
        self.parts.get(at).copied().unwrap_or(0)
    }

    /// The name of a part of the source predicate, with so many arguments.
    fn name_of(&self, part: u32, width: usize) -> Result<ProcName, Memory>
        ensures source { IfOk result (λ name. name.name ≡ self.now.name) }
        ensures arity { IfOk result (λ name. name.arity ≡ self.now.arity) }
        ensures part { IfOk result (λ name. name.part ≡ part) }
        ensures width { IfOk result (λ name. name.width ≡ width) }
    {
        Ok(ProcName {
            name: self.name,
            arity: self.arity,
            part,
            width: width_of(width)?,
        })
    }
}

/// What stands for an argument of a goal: the variable of the outline that is listed for it, or the argument.
fn place(
    argument: &Term,
    listed: Option<u32>,
    variables: &mut ClauseVariables,
) -> Result<Term, Memory>
    ensures below { IfOk result (λ placed. IsTermBelow variables.new (plain placed)) }
    ensures grows { OnOk result (variables.old ≤ variables.new) }
{
    match listed {
        Some(variable) => Ok(Term::Var(variables.number(variable)?)),
        None => variables.term(argument),
    }
}

/// The goal `V = T`, where V is the variable `left` of the outline.
fn unify(left: u32, term: &Term, variables: &mut ClauseVariables) -> Result<KernelGoal, Memory>
    ensures below { IfOk result (IsGoalBelow variables.new) }
    ensures grows { OnOk result (variables.old ≤ variables.new) }
{
    let left = variables.number(left)?;
    let right = variables.term(term)?;
    Ok(KernelGoal::Unify(left, right))
}

/// A cut of the clause that is written in the program, where `barrier` is the own barrier variable.
fn cut(barrier: Option<u32>) -> KernelGoal
    ensures own { barrier ≡ None → result ≡ kernel_goal.Cut }
    ensures handed { (variable : ℕ) → barrier ≡ Some variable → result ≡ kernel_goal.CutTo variable }
{
    match barrier {
        Some(variable) => KernelGoal::CutTo(variable),
        None => KernelGoal::Cut,
    }
}

/// The arguments of a built-in that are not evaluated, and those that are.
fn split_evaluated(builtin: Builtin, arguments: &[Term]) -> (&[Term], &[Term])
    ensures { result.0.now ++ result.1.now ≡ arguments.now }
{
    match (builtin, arguments) {
        (Builtin::Is, [_, ..]) => arguments.split_at(1),
        (
            Builtin::NumberEqual
            | Builtin::NumberNotEqual
            | Builtin::Less
            | Builtin::AtMost
            | Builtin::Greater
            | Builtin::AtLeast,
            _,
        ) => (&[], arguments),
        _ => (arguments, &[]),
    }
}

fn width_of(count: usize) -> Result<u8, Memory>
    ensures { IfOk result (λ width. width ≡ count) }
{
    match u8::try_from(count) {
        Ok(width) => Ok(width),
        Err(_) => Err(Memory),
    }
}
