use crate::bench::{open_sink, open_store};
use answer_io::load::{Beginning, load_argument, load_ground};
use answer_io::load_query::load_query;
use answer_io::query::Query;
use answer_io::query_fault::QueryFault;
use answer_io::write_answer::{end_line, write_answer};
use answer_io::wrote::Wrote;
use aq_base::area_name::AreaName;
use aq_base::memory_sink::MemorySink;
use aq_term::atom::Atom;
use aq_term::atoms::Atoms;
use aq_term::entries::Entries;
use aq_term::entry::Entry;
use aq_term::mode::Mode;
use aq_term::modes::Modes;
use machine_store::store::Store;
use std::alloc::Global;
use std::process::Abort;
use std::test::Fail;
use tag_word::tag::Tag;
use tag_word::word::Word;

/// An entry for each of these names, with the modes that the letters stand for: g, n, o and a.
static ENTRIES: [(&str, &str); 8] = [
    ("p", ""),
    ("p", "a"),
    ("p", "aa"),
    ("p", "aaa"),
    ("p", "gnoa"),
    ("q", "oo"),
    ("q", "g"),
    ("q", "ooo"),
];

fn mode_of(letter: u8) -> Mode {
    match letter {
        b'g' => Mode::Ground,
        b'n' => Mode::Nonvar,
        b'o' => Mode::Out,
        _ => Mode::Any,
    }
}

fn entry_of(alloc: Global, atoms: &mut Atoms, name: &str, letters: &str) -> Result<Entry, Fail> {
    let mut modes = Modes::new(alloc);
    for letter in letters.as_bytes() {
        modes.push(mode_of(*letter))?;
    }
    if atoms.len() > 1000 {
        return Err("too many names".into());
    }
    let name = atoms.number(name)?;
    let arity = u8::try_from(letters.len())?;
    Ok(Entry {
        name,
        arity,
        modes,
        clause: 0,
    })
}

fn entries_of(alloc: Global, atoms: &mut Atoms, rows: &[(&str, &str)]) -> Result<Entries, Fail> {
    let mut entries = Entries::new(alloc);
    for (name, letters) in rows {
        entries.push(entry_of(alloc, atoms, name, letters)?)?;
    }
    Ok(entries)
}

fn loaded(alloc: Global, atoms: &mut Atoms, text: &str) -> Result<Result<Query, QueryFault>, Fail> {
    let entries = entries_of(alloc, atoms, &ENTRIES)?;
    if atoms.len() > 1000 {
        return Err("too many names".into());
    }
    Ok(load_query(alloc, &entries, atoms, text))
}

fn query_of(alloc: Global, atoms: &mut Atoms, text: &str) -> Result<Query, Fail> {
    match loaded(alloc, atoms, text)? {
        Ok(query) => Ok(query),
        Err(_) => Err("a query that is refused".into()),
    }
}

static REFUSED: [(&str, QueryFault); 19] = [
    ("", QueryFault::QuerySyntax),
    ("p(", QueryFault::QuerySyntax),
    ("p. q.", QueryFault::QuerySyntax),
    ("p(9223372036854775808)", QueryFault::QuerySyntax),
    ("p('ab", QueryFault::QuerySyntax),
    ("X", QueryFault::NotEntry),
    ("7", QueryFault::NotEntry),
    ("r", QueryFault::NotEntry),
    ("q", QueryFault::NotEntry),
    ("p(a,b,c,d,e)", QueryFault::NotEntry),
    ("p(X,a,Y,Z)", QueryFault::QueryMode(1)),
    ("p(f(X),X,Y,Z)", QueryFault::QueryMode(1)),
    ("p(a,X,Y,Z)", QueryFault::QueryMode(2)),
    ("p(a,f(X),a,Z)", QueryFault::QueryMode(3)),
    ("p(a,f(X),X,Z)", QueryFault::QueryMode(3)),
    ("p(a,b,X,X)", QueryFault::QueryMode(3)),
    ("q(X,X)", QueryFault::QueryMode(1)),
    ("q(X,a)", QueryFault::QueryMode(2)),
    ("q([1|T])", QueryFault::QueryMode(1)),
];

fn check_refused(rt: &impl Abort, alloc: Global, rows: &[(&str, QueryFault)]) -> Result<(), Fail> {
    for (text, fault) in rows {
        let mut atoms = Atoms::new(alloc)?;
        match loaded(alloc, &mut atoms, text)? {
            Ok(_) => return Err("a query that is to be refused".into()),
            Err(found) => assert_eq!(rt; found, *fault, "{text}"),
        }
    }
    Ok(())
}

#[test]
fn queries_are_refused(rt: HostRuntime) -> Result<(), Fail> {
    check_refused(&rt, rt.alloc(), &REFUSED)
}

/// Texts of queries, each with the entry's place, the number of arguments, the variables' names and the weight.
static TAKEN: [(&str, u64, usize, &str, u64); 7] = [
    ("p", 0, 0, "", 1),
    ("p.", 0, 0, "", 1),
    ("p(X)", 1, 1, "X,", 4),
    ("p(X,_) ", 2, 2, "X,_,", 6),
    ("p(_,_,_)", 3, 3, "_,_,_,", 8),
    ("p(\"ab\",a,Y,Z)", 4, 4, "Y,Z,", 14),
    ("q(X,Y).", 5, 2, "X,Y,", 6),
];

fn names_text(alloc: Global, query: &Query) -> Result<String, Fail> {
    let mut text = String::new(alloc);
    for name in query.names.as_slice() {
        text.push_str(name.as_str())?;
        text.push_str(",")?;
    }
    Ok(text)
}

fn check_taken(
    rt: &impl Abort,
    alloc: Global,
    rows: &[(&str, u64, usize, &str, u64)],
) -> Result<(), Fail> {
    for (text, entry, args, names, weight) in rows {
        let mut atoms = Atoms::new(alloc)?;
        let query = query_of(alloc, &mut atoms, text)?;
        assert_eq!(rt; query.entry, *entry, "{text}");
        assert_eq!(rt; query.args.len(), *args, "{text}");
        assert_eq!(rt; query.weight, *weight, "{text}");
        assert_eq!(rt; query.cells.len(), query.names.len(), "{text}");
        let found = names_text(alloc, &query)?;
        assert_eq!(rt; found.as_str(), *names, "{text}");
    }
    Ok(())
}

#[test]
fn queries_are_taken(rt: HostRuntime) -> Result<(), Fail> {
    check_taken(&rt, rt.alloc(), &TAKEN)
}

/// The name with a number of at most 32 bits.
fn name_of(atoms: &Atoms, number: u64) -> Result<&str, Fail> {
    let number = u32::try_from(number)?;
    Ok(atoms.text_or_empty(Atom { number }))
}

/// A word as text: its tag, and its value; functors and atoms by their names.
fn word_text(alloc: Global, atoms: &Atoms, word: Word) -> Result<String, Fail> {
    let value = word.value();
    match word.tag() {
        Tag::Ref => Ok(format!(in alloc; "r{value} ")?),
        Tag::Int => Ok(format!(in alloc; "i{value} ")?),
        Tag::Atm => Ok(format!(in alloc; "{} ", name_of(atoms, value)?)?),
        Tag::Lst => Ok(format!(in alloc; "l{value} ")?),
        Tag::Str => Ok(format!(in alloc; "s{value} ")?),
        Tag::Fun => functor_text(alloc, atoms, value),
        Tag::Hol => Ok(String::from_str(alloc, "hole ")?),
        _ => Err("no word of a query".into()),
    }
}

fn functor_text(alloc: Global, atoms: &Atoms, value: u64) -> Result<String, Fail> {
    let name = name_of(atoms, value / 256)?;
    let arity = value % 256;
    Ok(format!(in alloc; "{name}/{arity} ")?)
}

/// Puts the words of a query on the heap and appends those of its arguments.
fn load_words(
    alloc: Global,
    atoms: &Atoms,
    store: &mut Store,
    query: &Query,
    beginning: Beginning,
    text: &mut String,
) -> Result<(), Fail> {
    let base = store.heap_len();
    for argument in query.args.as_slice() {
        match load_argument(store, query, base, argument, beginning) {
            Ok(word) => text.push_str(word_text(alloc, atoms, word)?.as_str())?,
            Err(_) => return Err("no room for a query".into()),
        }
    }
    Ok(())
}

/// Appends the words of the heap.
fn heap_words(alloc: Global, atoms: &Atoms, store: &Store, text: &mut String) -> Result<(), Fail> {
    for index in 0..store.heap_len() {
        let word = store.cell(index).ok_or("no cell")?;
        text.push_str(word_text(alloc, atoms, word)?.as_str())?;
    }
    Ok(())
}

/// The words of the arguments, then those of the heap, then the places of the variables.
fn layout_of(
    alloc: Global,
    atoms: &Atoms,
    store: &mut Store,
    query: &Query,
    beginning: Beginning,
) -> Result<String, Fail> {
    let mut text = String::new(alloc);
    load_words(alloc, atoms, store, query, beginning, &mut text)?;
    text.push_str(": ")?;
    heap_words(alloc, atoms, store, &mut text)?;
    text.push_str(":")?;
    for place in query.cells.as_slice() {
        text.push_str(format!(in alloc; " {place}")?.as_str())?;
    }
    Ok(text)
}

static LAYOUTS: [(&str, &str); 18] = [
    ("p", ": :"),
    ("p(a)", "a : :"),
    ("p(7)", "i7 : :"),
    ("p(X)", "r0 : r0 : 0"),
    ("p(X,X)", "r0 r0 : r0 : 0"),
    ("p(X,Y)", "r0 r1 : r0 r1 : 0 1"),
    ("p(f(X,a))", "s0 : f/2 r1 a : 1"),
    ("p([X,1])", "l0 : r0 l2 i1 [] : 0"),
    (
        "p(X,f(X,Y),[1,Y])",
        "r0 s1 l4 : r0 f/2 r0 r3 i1 l6 r3 [] : 0 3",
    ),
    ("p(f(X),X)", "s0 r1 : f/1 r1 : 1"),
    ("p(f(g(X),X))", "s0 : f/2 s3 r2 g/1 r2 : 2"),
    (
        "p(f(g(X),h(Y),X,Y))",
        "s0 : f/4 s5 s7 r3 r4 g/1 r3 h/1 r4 : 3 4",
    ),
    (
        "p(f(g(h(1)),k(2)))",
        "s0 : f/2 s3 s7 g/1 s5 h/1 i1 k/1 i2 :",
    ),
    ("p([[a],[b|T]])", "l0 : l2 l4 a [] l6 [] b r7 : 7"),
    ("p('.'(a))", "s0 : ./1 a :"),
    ("p(a,f(X),Y,Z)", "a s0 r2 r3 : f/1 r1 r2 r3 : 1 2 3"),
    ("p(f(X),g(Y,X),Y)", "s0 s2 r3 : f/1 r1 g/2 r3 r1 : 1 3"),
    ("p(_,f(_),_)", "r0 s1 r3 : r0 f/1 r2 r3 : 0 2 3"),
];

fn check_layouts(rt: &impl Abort, alloc: Global, rows: &[(&str, &str)]) -> Result<(), Fail> {
    for (text, layout) in rows {
        let mut atoms = Atoms::new(alloc)?;
        let query = query_of(alloc, &mut atoms, text)?;
        let mut store = open_store(alloc, 100, 1)?;
        let found = layout_of(alloc, &atoms, &mut store, &query, Beginning::Unbound)?;
        assert_eq!(rt; found.as_str(), *layout, "{text}");
    }
    Ok(())
}

#[test]
fn queries_are_laid_out(rt: HostRuntime) -> Result<(), Fail> {
    check_layouts(&rt, rt.alloc(), &LAYOUTS)
}

#[test]
fn results_begin_as_holes_behind_a_pool(rt: HostRuntime) -> Result<(), Fail> {
    let alloc = rt.alloc();
    let mut atoms = Atoms::new(alloc)?;
    let query = query_of(alloc, &mut atoms, "q(X,Y,Z)")?;
    let pooled = query_of(alloc, &mut atoms, "p(f([1,a],g(2)))")?;
    let mut store = open_store(alloc, 100, 1)?;
    for term in pooled.args.as_slice() {
        let word = load_ground(&mut store, term);
        assert!(rt; word.is_ok());
    }
    let found = layout_of(alloc, &atoms, &mut store, &query, Beginning::Hole)?;
    let layout = "r9 r10 r11 : f/2 l3 s7 i1 l5 a [] g/1 i2 hole hole hole : 0 1 2";
    assert_eq!(rt; found.as_str(), layout);
    Ok(())
}

/// Texts of queries, each with the words that it needs.
static NEEDS: [(&str, u64); 5] = [
    ("p", 0),
    ("p(a)", 0),
    ("p(X)", 1),
    ("p(X,f(X,Y),[1,Y])", 8),
    ("p(f(g(X),h(Y),X,Y))", 9),
];

/// Whether a query has room on a heap of this many words.
fn fits(alloc: Global, query: &Query, heap: u64) -> Result<bool, Fail> {
    if heap > 1000 {
        return Err("too large a heap".into());
    }
    let mut store = open_store(alloc, heap, 1)?;
    for argument in query.args.as_slice() {
        if load_argument(&mut store, query, 0, argument, Beginning::Unbound).is_err() {
            return Ok(false);
        }
    }
    Ok(true)
}

fn check_needs(rt: &impl Abort, alloc: Global, rows: &[(&str, u64)]) -> Result<(), Fail> {
    for (text, need) in rows {
        let mut atoms = Atoms::new(alloc)?;
        let query = query_of(alloc, &mut atoms, text)?;
        let enough = fits(alloc, &query, *need)?;
        assert!(rt; enough, "{text}");
        for heap in 0..*need {
            let short = fits(alloc, &query, heap)?;
            assert!(rt; !short, "{text} {heap}");
        }
    }
    Ok(())
}

#[test]
fn a_query_needs_its_words(rt: HostRuntime) -> Result<(), Fail> {
    check_needs(&rt, rt.alloc(), &NEEDS)
}

/// What a cell is bound to.
#[derive(Clone, Copy)]
enum Value {
    Ref(u64),
    Lst(u64),
    Str(u64),
    Int(i64),
    Name(Atom),
}

impl Value {
    fn word(self) -> Word {
        match self {
            Value::Ref(index) => Word::of(Tag::Ref, index),
            Value::Lst(index) => Word::of(Tag::Lst, index),
            Value::Str(index) => Word::of(Tag::Str, index),
            Value::Int(value) => Word::of_int(value),
            Value::Name(name) => Word::of(Tag::Atm, u64::from(name.number)),
        }
    }
}

/// Texts of queries, each with bindings of cells, the lines of the answer and its visits.
static ANSWERS: [(&str, &[(u64, Value)], &str, u64); 11] = [
    ("p", &[], "true\n;\n", 0),
    ("p(a)", &[], "true\n;\n", 0),
    ("p(_)", &[], "true\n;\n", 0),
    ("p(X)", &[], "X = _0\n;\n", 1),
    ("p(X)", &[(0, Value::Name(Atom::MINUS))], "X = -\n;\n", 1),
    ("p(X,_)", &[(0, Value::Name(Atom::NIL))], "X = []\n;\n", 1),
    ("p(X,Y)", &[], "X = _0\nY = _1\n;\n", 3),
    ("p(X,Y)", &[(1, Value::Ref(0))], "X = _0\nY = _0\n;\n", 3),
    (
        "p(X,f(Y,Z,(a:-b)),Z)",
        &[(0, Value::Str(1)), (2, Value::Int(-3))],
        "X = f(-3,_0,(a :- b))\nY = -3\nZ = _0\n;\n",
        9,
    ),
    ("p(X,(a:-b))", &[(0, Value::Str(1))], "X = (a :- b)\n;\n", 3),
    (
        "p(X,[_,Y|_])",
        &[(0, Value::Lst(1))],
        "X = [_0,_1|_2]\nY = _1\n;\n",
        11,
    ),
];

/// A query on a store of its own.
#[derive(Drop)]
struct Asked {
    atoms: Atoms,
    query: Query,
    store: Store,
}

impl Asked {
    /// The query of a text, with these cells bound.
    fn new(alloc: Global, text: &str, bindings: &[(u64, Value)]) -> Result<Asked, Fail> {
        let mut atoms = Atoms::new(alloc)?;
        let query = query_of(alloc, &mut atoms, text)?;
        let mut store = open_store(alloc, 100, 100)?;
        layout_of(alloc, &atoms, &mut store, &query, Beginning::Unbound)?;
        for (cell, value) in bindings {
            if store.set_cell(*cell, value.word()).is_err() {
                return Err("no cell to bind".into());
            }
        }
        Ok(Asked {
            atoms,
            query,
            store,
        })
    }

    /// Writes its answer with this many visits.
    fn answer(&mut self, sink: &mut MemorySink, begun: &mut bool, left: &mut u64) -> Wrote {
        write_answer(
            &mut self.store,
            &self.atoms,
            &self.query,
            0,
            sink,
            begun,
            left,
        )
    }
}

fn check_answer(
    rt: &impl Abort,
    alloc: Global,
    asked: &mut Asked,
    lines: &str,
    visits: u64,
) -> Result<(), Fail> {
    let mut sink = open_sink(alloc, 3)?;
    let mut begun = true;
    let ended = end_line(&mut sink, &mut begun);
    assert!(rt; ended.is_ok() && !begun, "{lines}");
    let mut left = visits;
    let wrote = asked.answer(&mut sink, &mut begun, &mut left);
    assert_eq!(rt; wrote, Wrote::Done, "{lines}");
    assert_eq!(rt; left, 0, "{lines}");
    assert!(rt; !begun, "{lines}");
    assert_eq!(rt;
        sink.bytes().len().saturating_sub(1),
        lines.len(),
        "{lines}"
    );
    assert!(rt; sink.bytes().ends_with(lines.as_bytes()), "{lines}");
    assert_eq!(rt; asked.store.work_len(), 0, "{lines}");
    Ok(())
}

/// One visit fewer stops the answer at a prefix.
fn check_short_answer(
    rt: &impl Abort,
    alloc: Global,
    asked: &mut Asked,
    lines: &str,
    visits: u64,
) -> Result<(), Fail> {
    if visits == 0 {
        return Ok(());
    }
    let mut sink = open_sink(alloc, 3)?;
    let mut begun = false;
    let mut left = visits - 1;
    let wrote = asked.answer(&mut sink, &mut begun, &mut left);
    assert_eq!(rt; wrote, Wrote::Stopped, "{lines}");
    assert!(rt; lines.as_bytes().starts_with(sink.bytes()), "{lines}");
    assert!(rt; begun, "{lines}");
    Ok(())
}

fn check_answers(
    rt: &impl Abort,
    alloc: Global,
    rows: &[(&str, &[(u64, Value)], &str, u64)],
) -> Result<(), Fail> {
    for (text, bindings, lines, visits) in rows {
        let mut asked = Asked::new(alloc, text, bindings)?;
        check_answer(rt, alloc, &mut asked, lines, *visits)?;
        check_short_answer(rt, alloc, &mut asked, lines, *visits)?;
    }
    Ok(())
}

#[test]
fn answers_have_their_lines(rt: HostRuntime) -> Result<(), Fail> {
    check_answers(&rt, rt.alloc(), &ANSWERS)
}

#[test]
fn an_answer_with_an_open_result_is_stray(rt: HostRuntime) -> Result<(), Fail> {
    let alloc = rt.alloc();
    let mut asked = Asked::new(alloc, "q(X,Y)", &[])?;
    if asked.store.set_cell(1, Word::of(Tag::Hol, 0)).is_err() {
        return Err("no cell".into());
    }
    let mut sink = open_sink(alloc, 3)?;
    let mut begun = false;
    let mut left = 10;
    let wrote = asked.answer(&mut sink, &mut begun, &mut left);
    assert_eq!(rt; wrote, Wrote::Stray);
    assert_eq!(rt; sink.bytes(), b"X = _0\nY = ".as_slice());
    Ok(())
}

#[test]
fn an_answer_needs_words_of_the_work_area(rt: HostRuntime) -> Result<(), Fail> {
    let alloc = rt.alloc();
    let mut asked = Asked::new(alloc, "q(X,Y)", &[])?;
    for _ in 0..95 {
        let pushed = asked.store.push_work(Word::of_int(0));
        assert!(rt; pushed.is_ok());
    }
    let mut sink = open_sink(alloc, 3)?;
    let mut begun = false;
    let mut left = 10;
    let wrote = asked.answer(&mut sink, &mut begun, &mut left);
    assert_eq!(rt; wrote, Wrote::Full(AreaName::Work));
    assert_eq!(rt; asked.store.work_len(), 95);
    Ok(())
}
