//! Programs and queries from their texts.
use crate::interpreter::{Bounds, interpret};
use crate::transcript::Transcript;
use aq_term::atoms::Atoms;
use aq_term::memory::Memory;
use aq_term::read_term::ReadTerm;
use aq_term::read_terms::ReadTerms;
use prolog_reader::fault::ReadFault;
use prolog_reader::read::{read_clause, read_query};
use prolog_tokens::fault::TokenFault;
use prolog_tokens::scan::{next_clause, query_tokens};
use source_program::fault::GatherFault;
use source_program::gather;
use source_program::program::Program;
use source_program::query_entry::{EntryFault, query_entry};
use std::alloc::{AllocError, AllocFailed, Global};

/// The most bytes of a text and of a query.
const MOST_BYTES: usize = 16_777_216;

/// The most names before a clause or a query is read.
const MOST_ATOMS: usize = 268_435_456;

/// Why a text or a query is not run.
#[derive(Clone, Copy, Debug, PartialEq, Eq)]
pub enum ReadingFault {
    /// The text is no program, or the query none of it.
    Refused,
    Memory,
}

impl From<Memory> for ReadingFault {
    fn from(_error: Memory) -> ReadingFault {
        ReadingFault::Memory
    }
}

impl From<AllocError> for ReadingFault {
    fn from(_error: AllocError) -> ReadingFault {
        ReadingFault::Memory
    }
}

impl<T: Drop> From<AllocFailed<T>> for ReadingFault {
    fn from(_failed: AllocFailed<T>) -> ReadingFault {
        ReadingFault::Memory
    }
}

impl From<TokenFault> for ReadingFault {
    fn from(fault: TokenFault) -> ReadingFault {
        match fault {
            TokenFault::At(_at) => ReadingFault::Refused,
            TokenFault::Memory => ReadingFault::Memory,
        }
    }
}

impl From<ReadFault> for ReadingFault {
    fn from(fault: ReadFault) -> ReadingFault {
        match fault {
            ReadFault::Memory => ReadingFault::Memory,
            _ => ReadingFault::Refused,
        }
    }
}

impl From<GatherFault> for ReadingFault {
    fn from(fault: GatherFault) -> ReadingFault {
        match fault {
            GatherFault::Refused(_refusal) => ReadingFault::Refused,
            GatherFault::Memory => ReadingFault::Memory,
        }
    }
}

impl From<EntryFault> for ReadingFault {
    fn from(fault: EntryFault) -> ReadingFault {
        match fault {
            EntryFault::Memory => ReadingFault::Memory,
            _ => ReadingFault::Refused,
        }
    }
}

/// Runs a query on the program of a text.
pub fn interpret_text(
    alloc: Global,
    text: &[u8],
    query: &[u8],
    bounds: Bounds,
) -> Result<Transcript, ReadingFault> {
    let mut atoms = Atoms::new(alloc)?;
    let clauses = read_clauses(alloc, text, &mut atoms)?;
    let program = gather(alloc, &clauses, &atoms)?;
    let query = read_query_of(alloc, query, &program, &mut atoms)?;
    Ok(interpret(alloc, &program, &atoms, &query, bounds)?)
}

/// The clauses of a text.
fn read_clauses(alloc: Global, text: &[u8], atoms: &mut Atoms) -> Result<ReadTerms, ReadingFault> {
    let mut clauses = ReadTerms::new(alloc);
    let mut at = 0;
    for _ in 0..=text.len() {
        let Some((read, end)) = clause_at(alloc, text, at, atoms)? else {
            return Ok(clauses);
        };
        clauses.push(read)?;
        at = end;
    }
    Ok(clauses)
}

/// The clause that begins at a place or behind the layout there, with the place after it.
fn clause_at(
    alloc: Global,
    text: &[u8],
    at: usize,
    atoms: &mut Atoms,
) -> Result<Option<(ReadTerm, usize)>, ReadingFault> {
    if text.len() > MOST_BYTES || at > text.len() || atoms.len() > MOST_ATOMS {
        return Err(ReadingFault::Refused);
    }
    let Some(clause) = next_clause(alloc, text, at)? else {
        return Ok(None);
    };
    let read = read_clause(alloc, &clause.tokens, atoms)?;
    Ok(Some((read, clause.end)))
}

/// A query that an entry of the program takes.
fn read_query_of(
    alloc: Global,
    query: &[u8],
    program: &Program,
    atoms: &mut Atoms,
) -> Result<ReadTerm, ReadingFault> {
    if query.len() > MOST_BYTES || atoms.len() > MOST_ATOMS {
        return Err(ReadingFault::Refused);
    }
    let tokens = query_tokens(alloc, query)?;
    let read = read_query(alloc, &tokens, atoms)?;
    let _entry = query_entry(alloc, &read, &program.entries)?;
    Ok(read)
}
