ghost use Rattle.std.specs.Prelude.{◌≡◌, ◌+◌, All, IfOk, OnOk, length};
ghost use Rattle.kernel_form.specs.Own.{HasOwnVariables, IsOwnClause};

use crate::clause_form::ClauseForm;
use crate::clause_variables::ClauseVariables;
use aq_term::atom::Atom;
use aq_term::memory::Memory;
use aq_term::proc_name::ProcName;
use kernel_ir::kernel_clause::KernelClause;
use kernel_ir::kernel_clauses::KernelClauses;
use kernel_ir::kernel_predicate::KernelPredicate;
use source_program::kernel_outline::{AuxiliaryKind, Item, ItemKind, KernelOutline};
use source_program::outline_builder::outline_of;
use source_program::outline_clause::OutlineClause;
use source_program::outline_walk::OutlineWalk;
use source_program::predicate_set::PredicateSet;
use source_program::source_clause::SourceClause;
use std::alloc::Global;
use std::marker::Model;

/// The kernel form of a source predicate as it is made. Contracts see the list of its predicates.
#[derive(Drop)]
pub struct PredicateForm<'a> {
    alloc: Global,
    /// The predicates that have clauses.
    defined: &'a PredicateSet,
    name: Atom,
    arity: u8,
    /// The predicate itself, and its auxiliary predicates by number.
    made: Vec<KernelPredicate>,
}

impl<'a> Model for PredicateForm<'a> {
    ghost use Rattle.std.specs.Prelude.{List, All};
    ghost use Rattle.kernel_ir.specs.declared.kernel_predicate.KernelPredicate.{KernelPredicate};

    ghost Value = { List KernelPredicate };

    ghost use Rattle.kernel_ir.specs.contracts.kernel_predicate.KernelPredicate as item;
    ghost use Rattle.std.specs.Coded.{coded_list};

    ghost coded = { coded_list item.the_row.coded };

    ghost use Rattle.kernel_form.specs.Own.{HasOwnVariables};

    ghost view = { λ form. form.made.items };

    ghost invariant = { λ form. All HasOwnVariables form.made.items };
}

impl<'a> PredicateForm<'a> {
    /// The form of a predicate without clauses.
    pub fn new(
        alloc: Global,
        defined: &'a PredicateSet,
        name: Atom,
        arity: u8,
    ) -> Result<PredicateForm<'a>, Memory>
        ensures { IfOk result (λ form. length form ≡ 1) }
    {
        let mut form = PredicateForm {
            alloc,
            defined,
            name,
            arity,
            made: Vec::new(alloc),
        };
        form.open(false)?;
        Ok(form)
    }

    /// The predicate, and then its auxiliary predicates by number.
    pub fn into_predicates(self) -> Vec<KernelPredicate>
        ensures same { result.items ≡ self.entry }
        ensures own { All HasOwnVariables result.items }
    {
        let PredicateForm { made, .. } = self;
        made
    }

    /// Adds the next clause.
    pub fn add(&mut self, clause: &SourceClause) -> Result<(), Memory> {
        let outline = outline_of(self.alloc, clause)?;
        self.add_outline(&outline, clause.number)
    }

    /// Adds the clauses of an outline, which come from the clause of this number in the text.
    fn add_outline(&mut self, outline: &KernelOutline, source: u64) -> Result<(), Memory> {
        let parts = self.number(&*outline)?;
        let mut variables = ClauseVariables::new(self.alloc, outline.variables)?;
        let mut walk = OutlineWalk::new(self.alloc, &*outline)?;
        for at in 0..outline.items.len() {
            if let Some(clause) = walk.clause_at(at)? {
                self.add_walked(&*outline, parts.as_slice(), &clause, &mut variables, source)?;
            }
        }
        Ok(())
    }

    /// Adds a clause of an outline, whose auxiliary predicates have these numbers.
    fn add_walked<'b>(
        &mut self,
        outline: &'b KernelOutline<'b>,
        parts: &'b [u32],
        clause: &'b OutlineClause,
        variables: &mut ClauseVariables,
        source: u64,
    ) -> Result<(), Memory> {
        let form = ClauseForm {
            alloc: self.alloc,
            defined: self.defined,
            name: self.name,
            arity: self.arity,
            outline,
            parts,
            clause,
        };
        let barrier = form.head(variables)?;
        let goals = form.goals(barrier, variables)?;
        let made = KernelClause {
            goals,
            variables: variables.count(),
            source,
        };
        let name = form.own_name(barrier.is_some())?;
        self.put(name, made)
    }

    /// Puts a clause at the end of the predicate of this name.
    fn put(&mut self, name: ProcName, clause: KernelClause) -> Result<(), Memory>
        requires { IsOwnClause clause }
        ensures { length self.new ≡ length self.old }
    {
        if let Some(predicate) = self.made.get_mut(name.part as usize) {
            predicate.name = name;
            predicate.clauses.push(clause)?;
        }
        Ok(())
    }

    /// Numbers the auxiliary predicates of an outline. The answer has the number of each by the place of its item, and 0 for other
    /// items.
    fn number(&mut self, outline: &KernelOutline) -> Result<Vec<u32>, Memory> {
        let mut parts = vec![in self.alloc; 0; outline.items.len()]?;
        for (at, item) in outline.items.as_slice().iter().enumerate() {
            if let ItemKind::Auxiliary(kind) = item.kind {
                self.number_item(at, item, kind, &mut parts)?;
            }
        }
        Ok(parts)
    }

    /// Numbers the auxiliary predicate that is the item at this place. A handler has its number from what it guards.
    fn number_item(
        &mut self,
        at: usize,
        item: &Item,
        kind: AuxiliaryKind,
        parts: &mut Vec<u32>,
    ) -> Result<(), Memory> {
        match kind {
            AuxiliaryKind::Handler(_) => Ok(()),
            AuxiliaryKind::Local => self.give(at, false, parts),
            AuxiliaryKind::Construct => self.give(at, item.cuts, parts),
            AuxiliaryKind::Guarded => {
                self.give(at, false, parts)?;
                let handler = at.saturating_add(1).saturating_add(item.inside);
                self.give(handler, false, parts)
            }
        }
    }

    /// Gives the next number to the item at this place.
    fn give(&mut self, at: usize, barrier: bool, parts: &mut Vec<u32>) -> Result<(), Memory> {
        let part = self.open(barrier)?;
        if let Some(given) = parts.get_mut(at) {
            *given = part;
        }
        Ok(())
    }

    /// Opens the next predicate, whose width is known with its first clause, and gives its number. More than a `u32` can number are
    /// want of memory.
    fn open(&mut self, barrier: bool) -> Result<u32, Memory>
        ensures part { IfOk result (λ part. part ≡ length self.old) }
        ensures made { OnOk result (length self.new ≡ length self.old + 1) }
    {
        let Ok(part) = u32::try_from(self.made.len()) else {
            return Err(Memory);
        };
        self.made.push(KernelPredicate {
            name: ProcName {
                name: self.name,
                arity: self.arity,
                part,
                width: self.arity,
            },
            barrier,
            clauses: KernelClauses::new(self.alloc),
        })?;
        Ok(part)
    }
}
