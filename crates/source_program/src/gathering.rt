ghost use Rattle.std.specs.Prelude.{◌≡◌, ◌≢◌, [], true, false, All, IfErr, IfOk, IsOkUnless, OnOk, map};
ghost use Rattle.source_program.specs.Forms.{HasModes};
ghost use Rattle.source_program.specs.Keys.{Key};
ghost use Rattle.source_program.specs.KeySets.{is_among, with_key};
ghost use Rattle.source_program.specs.Limits.{KeptLimits, IsLimit};
ghost use Rattle.source_program.specs.TextKeys.{declared, defined, entry_row, clause_row, clause_key_row, entries_with, clauses_with, keys_with, is_declared};
ghost use Rattle.source_program.specs.TextRefusals.{HaveForms, IsText, IsTextRefusal, IsEntryRefusal, IsKnown, IsFaultBy};

use crate::clause_form::{ClauseForm, NamedClause, clause_form};
use crate::clause_limits::ClauseLimits;
use crate::fault::GatherFault;
use crate::predicate::Predicate;
use crate::predicate_set::PredicateSet;
use crate::predicates::Predicates;
use crate::program::Program;
use crate::source_clauses::SourceClauses;
use aq_base::refusal::{FormKind, Refusal};
use aq_term::atom::Atom;
use aq_term::atoms::Atoms;
use aq_term::entries::Entries;
use aq_term::memory::Memory;
use aq_term::read_terms::ReadTerms;
use std::alloc::Global;

/// The program that the clauses make. Else it is refused for the first cause, in this order: the first clause that has no form of the
/// language, a second entry for one predicate among them; the first clause past a limit; no entry; the first entry whose predicate has no
/// clause.
pub fn gather(alloc: Global, clauses: &ReadTerms, atoms: &Atoms) -> Result<Program, GatherFault>
    ensures refused { IfErr result (IsFaultBy (IsTextRefusal clauses.now)) }
    ensures accepted { OnOk result (IsText clauses.now) }
    ensures entries { IfOk result (λ program. map entry_row program.entries ≡ declared clauses.now) }
    ensures modes { IfOk result (λ program. All HasModes program.entries) }
{
    let forms = Forms::of(alloc, clauses, atoms)?;
    test_limits(alloc, forms.clauses.as_slice())?;
    let Forms { clauses, entries } = forms;
    let gathered = Gathered::of(alloc, clauses)?;
    test_entries(&entries, &gathered)?;
    let Gathered {
        keys: _,
        predicates,
    } = gathered;
    Ok(Program {
        predicates: Predicates::from_vec(predicates),
        entries,
    })
}

/// The clauses of a text that are no directives, and the entries that it declares.
#[derive(Drop)]
struct Forms {
    clauses: Vec<NamedClause>,
    entries: Entries,
}

impl Forms {
    fn of(alloc: Global, clauses: &ReadTerms, atoms: &Atoms) -> Result<Forms, GatherFault>
        ensures forms { OnOk result (HaveForms clauses.now) }
        ensures clauses { IfOk result (λ forms. map clause_row forms.clauses.items ≡ defined clauses.now) }
        ensures entries { IfOk result (λ forms. map entry_row forms.entries ≡ declared clauses.now) }
        ensures modes { IfOk result (λ forms. All HasModes forms.entries) }
        ensures refused { IfErr result (IsFaultBy (IsTextRefusal clauses.now)) }
    {
        let mut forms = Forms {
            clauses: Vec::new(alloc),
            entries: Entries::new(alloc),
        };
        let mut declared = PredicateSet::new(alloc);
        for (index, read) in clauses.as_slice().iter().enumerate() {
            let number = index as u64 + 1;
            match clause_form(alloc, read, atoms, number) {
                Ok(form) => forms.add(form, number, &mut declared)?,
                Err(fault) => return Err(GatherFault::of_form(number, fault)),
            }
        }
        Ok(forms)
    }

    /// Adds what the clause of this number is. A second entry for one predicate is the fault of its directive.
    fn add(
        &mut self,
        form: ClauseForm,
        number: u64,
        declared: &mut PredicateSet,
    ) -> Result<(), GatherFault>
        ensures is_new { OnOk result (is_declared form declared.old ≡ false) }
        ensures entries { OnOk result (self.new.entries ≡ entries_with form self.old.entries) }
        ensures clauses { OnOk result (self.new.clauses.items ≡ clauses_with form self.old.clauses.items) }
        ensures keys { OnOk result (declared.new ≡ keys_with form declared.old) }
        ensures refused { IfErr result (IsFaultBy (λ r. (is_declared form declared.old ≡ true) × (r ≡ Refusal.Form number FormKind.Directive))) }
    {
        match form {
            ClauseForm::Clause(clause) => self.clauses.push(clause)?,
            ClauseForm::Entry(entry) => {
                let added = declared.add(entry.name, entry.arity as usize)?;
                if !added.is_new {
                    return Err(GatherFault::Refused(Refusal::Form {
                        clause: number,
                        kind: FormKind::Directive,
                    }));
                }
                self.entries.push(entry)?;
            }
        }
        Ok(())
    }
}

/// Tests the limits of each clause, in the order of the text.
fn test_limits(alloc: Global, clauses: &[NamedClause]) -> Result<(), GatherFault>
    ensures kept { OnOk result (KeptLimits (map clause_row clauses.now)) }
    ensures refused { IfErr result (IsFaultBy (IsLimit (map clause_row clauses.now))) }
{
    let mut limits = ClauseLimits::new();
    for named in clauses {
        if let Some(kind) = limits.passed_by(alloc, &named.clause)? {
            return Err(GatherFault::Refused(Refusal::Limit {
                clause: named.clause.number,
                kind,
            }));
        }
    }
    Ok(())
}

/// The predicates in the order of their first clauses, with their names and arities in the same order.
#[derive(Drop)]
struct Gathered {
    keys: PredicateSet,
    predicates: Vec<Predicate>,
}

impl Gathered {
    fn of(alloc: Global, clauses: Vec<NamedClause>) -> Result<Gathered, GatherFault>
        ensures memory { IsOkUnless result GatherFault.Memory }
        ensures keys { IfOk result (λ gathered. (k : Key) → is_among gathered.keys k ≡ is_among (map clause_key_row clauses.items) k) }
    {
        let mut gathered = Gathered {
            keys: PredicateSet::new(alloc),
            predicates: Vec::new(alloc),
        };
        for named in clauses {
            gathered.add(alloc, named)?;
        }
        Ok(gathered)
    }

    fn add(&mut self, alloc: Global, named: NamedClause) -> Result<(), GatherFault>
        ensures memory { IsOkUnless result GatherFault.Memory }
        ensures keys { OnOk result (self.new.keys ≡ with_key self.old.keys (clause_key_row named)) }
    {
        let NamedClause { name, clause } = named;
        let arity = clause.head.len();
        let added = self.keys.add(name, arity)?;
        match self.predicates.get_mut(added.place) {
            Some(predicate) => predicate.clauses.push(clause)?,
            None => {
                let Ok(arity) = u8::try_from(arity) else {
                    return Err(GatherFault::Memory);
                };
                let mut clauses = SourceClauses::new(alloc);
                clauses.push(clause)?;
                self.predicates.push(Predicate {
                    name,
                    arity,
                    clauses,
                })?;
            }
        }
        Ok(())
    }

    fn has(&self, name: Atom, arity: u8) -> bool
        ensures { result ≡ is_among self.now.keys (name.number, arity) }
    {
        self.keys.has(name, arity as usize)
    }
}

/// There is an entry, and each names a predicate.
fn test_entries(entries: &Entries, gathered: &Gathered) -> Result<(), GatherFault>
    ensures entered { OnOk result (map entry_row entries.now ≢ []) }
    ensures defined { OnOk result (All (IsKnown (is_among gathered.now.keys)) (map entry_row entries.now)) }
    ensures refused { IfErr result (IsFaultBy (IsEntryRefusal (map entry_row entries.now) (is_among gathered.now.keys))) }
{
    let entries = entries.as_slice();
    if entries.is_empty() {
        return Err(GatherFault::Refused(Refusal::NoEntry));
    }
    for entry in entries {
        if !gathered.has(entry.name, entry.arity) {
            return Err(GatherFault::Refused(Refusal::EntryUndefined {
                clause: entry.clause,
            }));
        }
    }
    Ok(())
}
