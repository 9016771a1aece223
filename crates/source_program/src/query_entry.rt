ghost use Rattle.std.specs.Prelude.{◌≡◌, ◌≤◌, ℕ, All, IfOk, IsErrOf, Some, None, get_or, length, map, nat_eq, replicate, slice_get};
ghost use Rattle.aq_term.specs.PlainOf.{plain};
ghost use Rattle.aq_term.specs.declared.entry.Entry.{Entry};
ghost use Rattle.source_program.specs.EntryFor.{IsEntryFor};
ghost use Rattle.source_program.specs.Modes.{AreNamed, AreUnder, IsRefusedAt, IsRefusedCall, IsTakenBy, IsTakenCall, counted, first_refused, is_taken};
ghost use Rattle.term_meaning.specs.Plain.{plains, variables, variables_of_all};
ghost use Rattle.source_program.specs.declared.query_entry.EntryFault.TheVariants as fault;

use aq_term::atom::Atom;
use aq_term::entries::Entries;
use aq_term::entry::Entry;
use aq_term::memory::Memory;
use aq_term::mode::Mode;
use aq_term::read_term::ReadTerm;
use aq_term::term::Term;
use std::alloc::{AllocError, AllocFailed, Global};
use thiserror::Error;

/// Why a query is none of an entry.
#[derive(Clone, Copy, Debug, PartialEq, Eq, Error)]
pub enum EntryFault {
    /// It names no predicate with an entry.
    #[error("query not entry")]
    NotEntry,
    /// The argument of this number, from 1, is the first that its mode refuses.
    #[error("query mode {0}")]
    Mode(u8),
    #[error("out of memory")]
    Memory,
}

impl From<Memory> for EntryFault {
    ghost from_gives = { λ _ e. e ≡ fault.Memory };

    fn from(_error: Memory) -> EntryFault {
        EntryFault::Memory
    }
}

impl From<AllocError> for EntryFault {
    ghost from_gives = { λ _ e. e ≡ fault.Memory };

    fn from(_error: AllocError) -> EntryFault {
        EntryFault::Memory
    }
}

impl<T: Drop> From<AllocFailed<T>> for EntryFault {
    ghost from_gives = { λ _ e. e ≡ fault.Memory };

    fn from(_failed: AllocFailed<T>) -> EntryFault {
        EntryFault::Memory
    }
}

/// The place among the entries, from 0, of the one that the query meets.
pub fn query_entry(alloc: Global, query: &ReadTerm, entries: &Entries) -> Result<usize, EntryFault>
    ensures entry { IfOk result (λ place. (entry : Entry) × (slice_get entries.now place ≡ Some entry) × IsEntryFor (plain query.now.term) entry) }
    ensures taken { AreNamed query.now → IfOk result (λ place. (entry : Entry) × (slice_get entries.now place ≡ Some entry) × IsTakenBy (plain query.now.term) entry) }
    ensures not_entry { IsErrOf result EntryFault.NotEntry → All (λ entry. ¬ IsEntryFor (plain query.now.term) entry) entries.now }
    ensures mode { (argument : ℕ) → AreNamed query.now → IsErrOf result (EntryFault.Mode argument) → IsRefusedAt (plain query.now.term) entries.now argument }
{
    match &query.term {
        Term::Var(_) | Term::Int(_) => Err(EntryFault::NotEntry),
        Term::Atom(name) => entry_of(alloc, *name, &[], query.names.len(), entries.as_slice()),
        Term::Compound(name, arguments) => entry_of(
            alloc,
            *name,
            arguments.as_slice(),
            query.names.len(),
            entries.as_slice(),
        ),
    }
}

/// The place of the entry of this name that takes these arguments, whose variables are below `variables`.
fn entry_of(
    alloc: Global,
    name: Atom,
    arguments: &[Term],
    variables: usize,
    entries: &[Entry],
) -> Result<usize, EntryFault>
    ensures entry { IfOk result (λ place. (entry : Entry) × (slice_get entries.now place ≡ Some entry) × (name.number ≡ entry.name.number) × (length arguments.now ≡ entry.arity)) }
    ensures taken { AreUnder variables (map plain arguments.now) → IfOk result (λ place. (entry : Entry) × (slice_get entries.now place ≡ Some entry) × IsTakenCall name.number (map plain arguments.now) entry) }
    ensures mode { (argument : ℕ) → AreUnder variables (map plain arguments.now) → IsErrOf result (EntryFault.Mode argument) → (place : ℕ) × (entry : Entry) × (slice_get entries.now place ≡ Some entry) × IsRefusedCall name.number (map plain arguments.now) entry argument }
    ensures not_entry { IsErrOf result EntryFault.NotEntry → All (λ entry. ¬ ((name.number ≡ entry.name.number) × (length arguments.now ≡ entry.arity))) entries.now }
{
    for (place, entry) in entries.iter().enumerate() {
        if name.number == entry.name.number && arguments.len() == entry.arity as usize {
            let counts = VariableCounts::of(alloc, arguments, variables)?;
            return match first_refused(arguments, entry.modes.as_slice(), &counts) {
                Some(argument) => Err(EntryFault::Mode(argument)),
                None => Ok(place),
            };
        }
    }
    Err(EntryFault::NotEntry)
}

/// The number, from 1, of the first argument that its mode refuses.
fn first_refused(arguments: &[Term], modes: &[Mode], counts: &VariableCounts) -> Option<u8>
    requires few { length arguments.now ≤ 255 }
    ensures { result ≡ first_refused (λ v. nat_eq (get_or counts.now.counts.items v 0) 1) 0 modes.now (map plain arguments.now) }
{
    let mut number: u8 = 0;
    for (argument, mode) in arguments.iter().zip(modes) {
        number = number.saturating_add(1);
        if !takes(*mode, argument, counts) {
            return Some(number);
        }
    }
    None
}

/// Whether an argument of this mode may be this term.
fn takes(mode: Mode, argument: &Term, counts: &VariableCounts) -> bool
    ensures { result ≡ is_taken (λ v. nat_eq (get_or counts.now.counts.items v 0) 1) mode (plain argument.now) }
{
    match mode {
        Mode::Ground => argument.is_ground(),
        Mode::Nonvar => !matches!(argument, Term::Var(_)),
        Mode::Out => match argument {
            Term::Var(number) => counts.is_single(*number),
            _ => false,
        },
        Mode::Any => true,
    }
}

/// How often each variable stands in a query.
#[derive(Drop)]
struct VariableCounts {
    counts: Vec<u64>,
}

impl VariableCounts {
    /// The counts of the variables below `variables` in these terms.
    fn of(alloc: Global, terms: &[Term], variables: usize) -> Result<VariableCounts, Memory>
        ensures { IfOk result (λ made. made.counts.items ≡ counted (variables_of_all (plains (map plain terms.now))) (replicate variables 0)) }
    {
        let mut counts = VariableCounts {
            counts: vec![in alloc; 0; variables]?,
        };
        for term in terms {
            counts.add(term);
        }
        Ok(counts)
    }

    /// Counts the variables of a term. It goes as deep as the term, which is at most 4,096 deep where it was read.
    #[tactic(auto, using(crate::proofs::TermParts::argument_falls))]
    fn add(&mut self, term: &Term)
        ensures { self.new.counts.items ≡ counted (variables (plain term.now)) self.old.counts.items }
    {
        match term {
            Term::Var(number) => {
                if let Some(count) = self.counts.get_mut(*number as usize) {
                    *count = count.saturating_add(1);
                }
            }
            Term::Int(_) | Term::Atom(_) => (),
            Term::Compound(_, arguments) => {
                for argument in arguments.as_slice() {
                    self.add(argument);
                }
            }
        }
    }

    fn is_single(&self, variable: u32) -> bool
        ensures { result ≡ nat_eq (get_or self.now.counts.items variable 0) 1 }
    {
        match self.counts.get(variable as usize) {
            Some(count) => *count == 1,
            None => false,
        }
    }
}
