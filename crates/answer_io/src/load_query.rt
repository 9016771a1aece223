//! A query's text, the entry that takes it, and where its variables stand.
ghost use Rattle.std.specs.Prelude.{◌≡◌, ◌≤◌, ◌<◌, ◌+◌, List, IfOk, IfErr, length};
ghost use Rattle.aq_term.specs.PlainOf.{plain};
ghost use Rattle.aq_term.specs.declared.entry.Entry.{Entry};
ghost use Rattle.source_program.specs.Modes.{arguments};
ghost use Rattle.answer_io.specs.QueryText.{MOST_QUERY, IsQuery};
ghost use Rattle.answer_io.specs.Loaded.{IsLoaded, IsMadeOf, IsRefusedBy, fault_of};

use crate::layout::own_cells;
use crate::query::Query;
use crate::query_fault::QueryFault;
use aq_term::args0::Args0;
use aq_term::atoms::Atoms;
use aq_term::entries::Entries;
use aq_term::memory::Memory;
use aq_term::read_term::ReadTerm;
use aq_term::term::Term;
use prolog_reader::fault::ReadFault;
use prolog_reader::read::read_query;
use prolog_tokens::fault::TokenFault;
use prolog_tokens::scan::query_tokens;
use source_program::query_entry::{EntryFault, query_entry};
use std::alloc::Global;

/// The most bytes that a query may have.
const MOST_BYTES: usize = 16_777_216;

/// The query of this text, with the entry that takes it. `QuerySyntax` comes where the text is too long or no term, then `NotEntry`
/// where no entry has its name and number of arguments, then `QueryMode` with the first argument that its mode refuses.
pub fn load_query(
    alloc: Global,
    entries: &Entries,
    atoms: &mut Atoms,
    text: &str,
) -> Result<Query, QueryFault>
    requires { length text.now ≤ MOST_QUERY → length atoms.old + length text.now < 4294967295 }
    ensures loaded { IfOk result (IsLoaded text.now entries.now) }
    ensures refused { IfErr result (IsRefusedBy text.now entries.now) }
{
    let read = match read_text(alloc, text.as_bytes(), atoms) {
        Ok(read) => read,
        Err(fault) => return Err(fault),
    };
    let place = match query_entry(alloc, &read, entries) {
        Ok(place) => place,
        Err(fault) => return Err(fault_of_entry(fault)),
    };
    match query_of(alloc, read, place) {
        Ok(query) => Ok(query),
        Err(Memory) => Err(QueryFault::Memory),
    }
}

/// The same cause as a fault of a query.
fn fault_of_entry(fault: EntryFault) -> QueryFault
    ensures { result ≡ fault_of fault }
{
    match fault {
        EntryFault::NotEntry => QueryFault::NotEntry,
        EntryFault::Mode(argument) => QueryFault::QueryMode(argument),
        EntryFault::Memory => QueryFault::Memory,
    }
}

/// The term of a query, where its text has one.
fn read_text(alloc: Global, text: &[u8], atoms: &mut Atoms) -> Result<ReadTerm, QueryFault>
    requires { length text.now ≤ MOST_QUERY → length atoms.old + length text.now < 4294967295 }
    ensures read { IfOk result (IsQuery text.now) }
    ensures refused { (entries : List Entry) → IfErr result (IsRefusedBy text.now entries) }
{
    if text.len() > MOST_BYTES {
        return Err(QueryFault::QuerySyntax);
    }
    let tokens = match query_tokens(alloc, text) {
        Ok(tokens) => tokens,
        Err(TokenFault::At(_at)) => return Err(QueryFault::QuerySyntax),
        Err(TokenFault::Memory) => return Err(QueryFault::Memory),
    };
    match read_query(alloc, &tokens, atoms) {
        Ok(read) => Ok(read),
        Err(ReadFault::Memory) => Err(QueryFault::Memory),
        Err(_no_reading) => Err(QueryFault::QuerySyntax),
    }
}

/// The query that was read, for the entry at this place.
fn query_of(alloc: Global, read: ReadTerm, place: usize) -> Result<Query, Memory>
    ensures { IfOk result (IsMadeOf read place) }
{
    let ReadTerm {
        term,
        names,
        weight,
    } = read;
    let args = arguments_of(alloc, term);
    let cells = own_cells(alloc, args.as_slice(), names.len())?;
    Ok(Query {
        entry: place as u64,
        args,
        names,
        cells,
        weight,
    })
}

/// The arguments of a term, none where it is no compound.
fn arguments_of(alloc: Global, term: Term) -> Args0
    ensures { result ≡ arguments (plain term) }
{
    match term {
        Term::Compound(_name, args) => Args0::from_vec(args.into_vec()),
        _ => Args0::new(alloc),
    }
}
