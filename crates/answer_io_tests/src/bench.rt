ghost use Rattle.std.specs.Prelude.{◌≡◌, ◌≤◌};

use answer_io::layout::own_cells;
use answer_io::load::{Beginning, load_argument};
use answer_io::query::Query;
use answer_io::write_words::write_words;
use answer_io::wrote::Wrote;
use aq_base::limits::Limits;
use aq_base::memory_sink::MemorySink;
use aq_term::args0::Args0;
use aq_term::atoms::Atoms;
use aq_term::names::Names;
use aq_term::term::Term;
use aq_term::text::Text;
use machine_store::store::Store;
use prolog_reader::read::read_query;
use prolog_tokens::scan::query_tokens;
use std::alloc::Global;
use std::test::Fail;
use tag_word::word::Word;

/// More than the names of any table here, the bytes of any text and the words of any area.
pub const MANY: usize = 1_000_000;

/// The greatest priority that a term may have.
pub const WHOLE: u16 = 1200;

/// A store whose heap and work area have this many words.
pub fn open_store(alloc: Global, heap: u64, work: u64) -> Result<Store, Fail>
    requires heap { heap ≤ 1000000 }
    requires work { work ≤ 1000000 }
{
    let limits = Limits {
        steps: 1,
        heap,
        env: 1,
        choice: 1,
        trail: 1,
        work,
    };
    Ok(Store::open(alloc, &limits)?)
}

/// A sink with much room that takes `most` bytes a call.
pub fn open_sink(alloc: Global, most: usize) -> Result<MemorySink, Fail>
    requires { 1 ≤ most }
{
    Ok(MemorySink::new(alloc, MANY, most, Vec::new(alloc))?)
}

/// The term of a text, and how many variables it has.
pub fn read_term(alloc: Global, atoms: &mut Atoms, text: &str) -> Result<(Term, usize), Fail> {
    let tokens = query_tokens(alloc, text.as_bytes())?;
    if atoms.len() > MANY || text.len() > MANY {
        return Err("too many names".into());
    }
    let read = read_query(alloc, &tokens, atoms)?;
    Ok((read.term, read.names.len()))
}

/// A query with this argument alone, whose variables are below `variables`.
pub fn query_on(alloc: Global, term: &Term, variables: usize) -> Result<Query, Fail> {
    let mut args = Args0::new(alloc);
    args.push(term.copy(alloc)?)?;
    let cells = own_cells(alloc, args.as_slice(), variables)?;
    let mut names = Names::new(alloc);
    for _ in 0..variables {
        names.push(Text::from_str(alloc, "_")?)?;
    }
    Ok(Query {
        entry: 0,
        args,
        names,
        cells,
        weight: 1,
    })
}

/// The word of a term whose variables are below `variables`, put on an empty heap.
pub fn load(alloc: Global, store: &mut Store, term: &Term, variables: usize) -> Result<Word, Fail> {
    let query = query_on(alloc, term, variables)?;
    match load_argument(store, &query, 0, term, Beginning::Unbound) {
        Ok(word) => Ok(word),
        Err(_) => Err("no room for a term".into()),
    }
}

/// What a write gave: its end, how many visits were done, and the bytes.
#[derive(Drop)]
pub struct Written {
    pub wrote: Wrote,
    pub visits: u64,
    pub sink: MemorySink,
    pub begun: bool,
}

/// How a term is written.
#[derive(Clone, Copy)]
pub struct Manner {
    pub quoted: bool,
    pub most: u16,
    pub visits: u64,
    pub piece: usize,
}

/// With quotes or without, at the greatest priority and with many visits.
pub fn whole(quoted: bool) -> Manner
    ensures { result.piece ≡ 1000000 }
{
    Manner {
        quoted,
        most: WHOLE,
        visits: 1_000_000,
        piece: MANY,
    }
}

/// Writes the term that a word stands for.
pub fn write(
    alloc: Global,
    store: &mut Store,
    atoms: &Atoms,
    word: Word,
    manner: Manner,
) -> Result<Written, Fail>
    requires { 1 ≤ manner.piece }
{
    let mut sink = open_sink(alloc, manner.piece)?;
    let mut begun = false;
    let mut left = manner.visits;
    let wrote = write_words(
        store,
        atoms,
        word,
        manner.quoted,
        manner.most,
        &mut sink,
        &mut begun,
        &mut left,
    );
    Ok(Written {
        wrote,
        visits: manner.visits.saturating_sub(left),
        sink,
        begun,
    })
}
