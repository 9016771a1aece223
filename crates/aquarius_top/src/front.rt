//! What a text and a query are taken as, or their first refusal, over the whole language.
ghost use Rattle.std.specs.Prelude.{◌≡◌, ◌≤◌, ◌<◌, ◌+◌, ◌-◌, ◌++◌, ◌∷◌, ℕ, List, [], None, All, IsTrue, IfOk, IfErr, IfSome, IfNone, IsErrOf, OnOk, length};
ghost use Rattle.prolog_tokens.specs.Layout.{Gap};
ghost use Rattle.prolog_tokens.specs.Scan.{IsClause, weight_of, total_weight, without_end};
ghost use Rattle.prolog_tokens.specs.declared.placed.Placed.{Placed};
ghost use Rattle.prolog_reader.specs.Brackets.{too_many_open};
ghost use Rattle.aq_term.specs.declared.read_term.ReadTerm.{ReadTerm as Read};
ghost use Rattle.aquarius_top.specs.FrontRefusal.{MOST_INPUT, MOST_FIXED, FrontRefuses, IsProgramText, IsQuery, IsNoQuery, IsEntered, IsQueryRefusal, IsReadAs};
ghost use Rattle.aquarius_top.specs.FrontFault.{IsFaultBy, IsStop, IsNoReading, ReadsSoFar, front_of};
ghost use Rattle.aquarius_top.specs.declared.front.FrontFault.TheVariants as fault;

use aq_base::refusal::{ReadKind, Refusal};
use aq_term::atoms::Atoms;
use aq_term::entries::Entries;
use aq_term::memory::Memory;
use aq_term::read_term::ReadTerm;
use aq_term::read_terms::ReadTerms;
use prolog_reader::fault::ReadFault;
use prolog_reader::read::{read_clause, read_query};
use prolog_tokens::clause::Clause;
use prolog_tokens::fault::TokenFault;
use prolog_tokens::scan::{next_clause, query_tokens};
use prolog_tokens::tokens::Tokens;
use source_program::fault::GatherFault;
use source_program::gather;
use source_program::program::Program;
use source_program::query_entry::{EntryFault, query_entry};
use std::alloc::Global;

/// The most bytes that a text may have.
const MOST_TEXT: usize = 16_777_216;

/// The most bytes that a query may have.
const MOST_QUERY: usize = 16_777_216;

/// Why a text or a query is not taken.
#[derive(Clone, Copy)]
pub enum FrontFault {
    /// The first refusal of the text and the query.
    Refused(Refusal),
    Memory,
}

impl From<Memory> for FrontFault {
    ghost from_gives = { λ _ e. e ≡ fault.Memory };

    fn from(_memory: Memory) -> FrontFault {
        FrontFault::Memory
    }
}

impl From<GatherFault> for FrontFault {
    ghost from_gives = { λ f e. e ≡ front_of f };

    fn from(fault: GatherFault) -> FrontFault {
        match fault {
            GatherFault::Refused(refusal) => FrontFault::Refused(refusal),
            GatherFault::Memory => FrontFault::Memory,
        }
    }
}

/// A text and a query that are taken.
#[derive(Drop)]
pub struct Accepted {
    /// The program of the text.
    pub program: Program,
    /// The table of the names in the program and the query.
    pub atoms: Atoms,
    /// The place among the program's entries, from 0, of the one that the query meets.
    pub entry: usize,
}

/// A text that is a program.
#[derive(Drop)]
pub struct ReadProgram {
    /// The program of the text.
    pub program: Program,
    /// The table of the names in the program.
    pub atoms: Atoms,
}

/// The program of the text. `Refused` names the first refusal: of tokens over the whole text, then of readings, of forms,
/// of limits and of entries.
pub fn accept_program(alloc: Global, text: &[u8]) -> Result<ReadProgram, FrontFault>
    requires { length text.now ≤ MOST_INPUT }
    ensures refused { (query : List ℕ) → IfErr result (IsFaultBy (FrontRefuses text.now query)) }
    ensures program { IfOk result (λ read. IsProgramText text.now read.program.entries) }
    ensures table { IfOk result (λ read. length read.atoms ≤ MOST_FIXED + MOST_INPUT) }
{
    let mut atoms = Atoms::new(alloc)?;
    let clauses = read_clauses(alloc, text, &mut atoms)?;
    let program = gather(alloc, &clauses, &atoms)?;
    Ok(ReadProgram { program, atoms })
}

/// The program of the text, with the entry that the query meets. `Refused` names the first refusal: of tokens over the
/// whole text, then of readings, of forms, of limits, of entries, and of the query.
pub fn accept(alloc: Global, query: &[u8], text: &[u8]) -> Result<Accepted, FrontFault>
    requires { length text.now ≤ MOST_INPUT }
    ensures refused { IfErr result (IsFaultBy (FrontRefuses text.now query.now)) }
    ensures program { IfOk result (λ accepted. IsProgramText text.now accepted.program.entries) }
    ensures query { OnOk result ((read : Read) × IsQuery query.now read) }
    ensures entered { IfOk result (λ accepted. IsEntered query.now accepted.program.entries accepted.entry) }
{
    let ReadProgram { program, mut atoms } = accept_program(alloc, text)?;
    let entry = take_query(alloc, query, &program.entries, &mut atoms)?;
    Ok(Accepted {
        program,
        atoms,
        entry,
    })
}

/// As `accept`, with the text's length among what is refused.
pub fn accept_within(alloc: Global, query: &[u8], text: &[u8]) -> Result<Accepted, FrontFault> {
    if text.len() > MOST_TEXT {
        return Err(FrontFault::Refused(Refusal::InputLength));
    }
    accept(alloc, query, text)
}

/// The clauses of a text. A fault of tokens anywhere in it comes before the first clause without a reading.
fn read_clauses(alloc: Global, text: &[u8], atoms: &mut Atoms) -> Result<ReadTerms, FrontFault>
    requires size { length text.now ≤ MOST_INPUT }
    requires few { length atoms.old ≤ MOST_FIXED }
    ensures count { IfOk result (λ clauses. length clauses ≤ length text.now) }
    ensures table { length atoms.new ≤ length atoms.old + length text.now }
    ensures read { IfOk result (λ clauses. IsReadAs text.now clauses) }
    ensures refused { (query : List ℕ) → IfErr result (IsFaultBy (FrontRefuses text.now query)) }
{
    let mut reading = Reading::new(alloc);
    let mut at = 0;
    let mut count: usize = 0;
    while let Some(clause) = clause_at(alloc, text, at, count as u64 + 1)? {
        at = clause.end;
        count += 1;
        reading.take(alloc, count as u64, &clause.tokens, atoms)?;
    }
    reading.finish()
}

/// The clause of this number, from 1, which begins at `at` or behind the layout there.
fn clause_at(
    alloc: Global,
    text: &[u8],
    at: usize,
    clause: u64,
) -> Result<Option<Clause>, FrontFault>
    requires place { at ≤ length text.now }
    requires size { length text.now ≤ MOST_INPUT }
    ensures end { IfOk result (λ found. IfSome found (λ clause. (at < clause.end) × (clause.end ≤ length text.now))) }
    ensures weighed { IfOk result (λ found. IfSome found (λ clause. All (λ p. p.weight ≡ weight_of p.token) clause.tokens)) }
    ensures light { IfOk result (λ found. IfSome found (λ clause. total_weight clause.tokens ≤ 536870912)) }
    ensures count { IfOk result (λ found. IfSome found (λ clause. length clause.tokens ≤ clause.end - at)) }
    ensures found { IfOk result (λ found. IfSome found (λ clause. IsClause text.now at clause.tokens clause.end)) }
    ensures none { IfOk result (λ found. IfNone found (Gap text.now at (length text.now))) }
    ensures refused { IfErr result (IsFaultBy (IsStop text.now at clause)) }
{
    match next_clause(alloc, text, at) {
        Ok(found) => Ok(found),
        Err(TokenFault::At(at)) => Err(FrontFault::Refused(Refusal::Token { clause, at })),
        Err(TokenFault::Memory) => Err(FrontFault::Memory),
    }
}

/// The clauses read so far, up to the first without a reading.
#[derive(Drop)]
struct Reading {
    clauses: ReadTerms,
    refusal: Option<Refusal>,
}

impl Reading {
    fn new(alloc: Global) -> Reading
        ensures clauses { result.clauses ≡ [] }
        ensures refusal { result.refusal ≡ None }
    {
        Reading {
            clauses: ReadTerms::new(alloc),
            refusal: None,
        }
    }

    fn take(
        &mut self,
        alloc: Global,
        clause: u64,
        tokens: &Tokens,
        atoms: &mut Atoms,
    ) -> Result<(), Memory>
        requires weighed { All (λ p. p.weight ≡ weight_of p.token) tokens.now }
        requires light { total_weight tokens.now ≤ 536870912 }
        requires room { length atoms.old + length tokens.now < 4294967295 }
        ensures clauses { length self.new.clauses ≤ length self.old.clauses + 1 }
        ensures table { length atoms.new ≤ length atoms.old + length tokens.now }
        ensures reads { (clauses : List (List Placed)) → length clauses + 1 ≡ clause → ReadsSoFar clauses self.old.clauses self.old.refusal
            → OnOk result (ReadsSoFar (clauses ++ tokens.now ∷ []) self.new.clauses self.new.refusal) }
    {
        if self.refusal.is_some() {
            return Ok(());
        }
        match read_clause(alloc, tokens, atoms) {
            Ok(read) => self.clauses.push(read),
            Err(fault) => {
                let kind = read_kind(fault)?;
                self.refusal = Some(Refusal::Read { clause, kind });
                Ok(())
            }
        }
    }

    fn finish(self) -> Result<ReadTerms, FrontFault>
        ensures clauses { IfOk result (λ clauses. clauses ≡ self.clauses) }
        ensures reads { (clauses : List (List Placed)) → ReadsSoFar clauses self.clauses self.refusal → IfOk result (λ reads. ReadsSoFar clauses reads None) }
        ensures refused { (clauses : List (List Placed)) → ReadsSoFar clauses self.clauses self.refusal → IfErr result (IsFaultBy (IsNoReading clauses)) }
    {
        match self.refusal {
            None => Ok(self.clauses),
            Some(refusal) => Err(FrontFault::Refused(refusal)),
        }
    }
}

/// The cause of a clause without a reading.
fn read_kind(fault: ReadFault) -> Result<ReadKind, Memory>
    ensures { fault ≡ ReadFault.Depth → IfOk result (λ kind. kind ≡ ReadKind.Depth) }
{
    match fault {
        ReadFault::Depth => Ok(ReadKind::Depth),
        ReadFault::Syntax => Ok(ReadKind::Syntax),
        ReadFault::IntRange => Ok(ReadKind::IntegerRange),
        ReadFault::ArityLimit => Ok(ReadKind::Arity),
        ReadFault::Memory => Err(Memory),
    }
}

/// The place among the entries, from 0, of the one that the query meets.
fn take_query(
    alloc: Global,
    query: &[u8],
    entries: &Entries,
    atoms: &mut Atoms,
) -> Result<usize, FrontFault>
    requires { length atoms.old ≤ MOST_FIXED + MOST_INPUT }
    ensures query { OnOk result ((read : Read) × IsQuery query.now read) }
    ensures entered { IfOk result (IsEntered query.now entries.now) }
    ensures refused { IfErr result (IsFaultBy (IsQueryRefusal query.now entries.now)) }
{
    let read = match read_whole_query(alloc, query, atoms) {
        Ok(read) => read,
        Err(QueryFault::Syntax) => return Err(FrontFault::Refused(Refusal::QuerySyntax)),
        Err(QueryFault::Memory) => return Err(FrontFault::Memory),
    };
    match query_entry(alloc, &read, entries) {
        Ok(place) => Ok(place),
        Err(EntryFault::NotEntry) => Err(FrontFault::Refused(Refusal::NotEntry)),
        Err(EntryFault::Mode(argument)) => {
            Err(FrontFault::Refused(Refusal::QueryMode { argument }))
        }
        Err(EntryFault::Memory) => Err(FrontFault::Memory),
    }
}

/// Why a query has no term.
#[derive(Clone, Copy)]
enum QueryFault {
    Syntax,
    Memory,
}

/// The term of a query. It has none where it is too long or has no reading.
fn read_whole_query(alloc: Global, query: &[u8], atoms: &mut Atoms) -> Result<ReadTerm, QueryFault>
    requires { length atoms.old ≤ MOST_FIXED + MOST_INPUT }
    ensures read { IfOk result (λ read. IsQuery query.now read) }
    ensures refused { IsErrOf result QueryFault.Syntax → IsNoQuery query.now }
{
    if query.len() > MOST_QUERY {
        return Err(QueryFault::Syntax);
    }
    let tokens = match query_tokens(alloc, query) {
        Ok(tokens) => tokens,
        Err(TokenFault::At(_at)) => return Err(QueryFault::Syntax),
        Err(TokenFault::Memory) => return Err(QueryFault::Memory),
    };
    match read_query(alloc, &tokens, atoms) {
        Ok(read) => Ok(read),
        Err(ReadFault::Memory) => Err(QueryFault::Memory),
        Err(_no_reading) => Err(QueryFault::Syntax),
    }
}
