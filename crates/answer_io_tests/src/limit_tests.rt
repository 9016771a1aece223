use crate::bench::{MANY, Manner, load, open_store, read_term, whole, write};
use answer_io::write_words::write_words;
use answer_io::wrote::Wrote;
use aq_base::area_name::AreaName;
use aq_base::memory_sink::MemorySink;
use aq_term::atoms::Atoms;
use machine_store::store::Store;
use std::alloc::Global;
use std::process::Abort;
use std::test::Fail;
use tag_word::tag::Tag;
use tag_word::word::Word;

/// A term on a store of its own.
#[derive(Drop)]
struct Placed {
    atoms: Atoms,
    store: Store,
    word: Word,
}

impl Placed {
    /// The term of a text on a store whose work area has this many words.
    fn new(alloc: Global, text: &str, work: u64) -> Result<Placed, Fail> {
        if work > 5000 {
            return Err("too large a work area".into());
        }
        let mut atoms = Atoms::new(alloc)?;
        let (term, variables) = read_term(alloc, &mut atoms, text)?;
        let mut store = open_store(alloc, 100, work)?;
        let word = load(alloc, &mut store, &term, variables)?;
        Ok(Placed { atoms, store, word })
    }

    /// How writing the term with this many visits ends, how many visits are done, and the bytes.
    fn write(&mut self, alloc: Global, visits: u64) -> Result<(Wrote, u64, Vec<u8>), Fail> {
        let manner = Manner {
            visits,
            ..whole(true)
        };
        let found = write(alloc, &mut self.store, &self.atoms, self.word, manner)?;
        let bytes = Vec::from_slice(alloc, found.sink.bytes())?;
        Ok((found.wrote, found.visits, bytes))
    }
}

/// Texts of terms, each with its visits: one a node, and for each variable one for each earlier one with which it is compared.
static VISITS: [(&str, u64); 12] = [
    ("a", 1),
    ("X", 1),
    ("f(X,X)", 4),
    ("f(X,Y)", 4),
    ("f(X,Y,Z)", 7),
    ("f(X,Y,Z,Z,Y,X)", 16),
    ("[1,2,3]", 7),
    ("[1,2|T]", 5),
    ("1+2*3", 5),
    ("- (a,b)", 4),
    ("{a}", 2),
    ("f(g(h(a)),[[]])", 7),
];

fn check_visits(rt: &impl Abort, alloc: Global, text: &str, visits: u64) -> Result<(), Fail> {
    let mut placed = Placed::new(alloc, text, 1000)?;
    let (wrote, done, bytes) = placed.write(alloc, 1000)?;
    assert_eq!(rt; wrote, Wrote::Done, "{text}");
    assert_eq!(rt; done, visits, "{text}");
    for most in 0..visits {
        let (wrote, done, part) = placed.write(alloc, most)?;
        assert_eq!(rt; wrote, Wrote::Stopped, "{text} {most}");
        assert_eq!(rt; done, most, "{text}");
        assert!(rt; bytes.starts_with(part.as_slice()), "{text} {most}");
        assert_eq!(rt; placed.store.work_len(), 0, "{text}");
    }
    Ok(())
}

fn check_all_visits(rt: &impl Abort, alloc: Global, rows: &[(&str, u64)]) -> Result<(), Fail> {
    for (text, visits) in rows {
        check_visits(rt, alloc, text, *visits)?;
    }
    Ok(())
}

#[test]
fn visits_are_counted_and_bound_the_write(rt: HostRuntime) -> Result<(), Fail> {
    check_all_visits(&rt, rt.alloc(), &VISITS)
}

/// Whether all is written with a work area of this many words.
fn is_done(rt: &impl Abort, alloc: Global, text: &str, work: u64) -> Result<bool, Fail> {
    let mut placed = Placed::new(alloc, text, work)?;
    let (wrote, _done, _bytes) = placed.write(alloc, 1000)?;
    assert_eq!(rt; placed.store.work_len(), 0, "{text}");
    if wrote != Wrote::Done {
        assert_eq!(rt; wrote, Wrote::Full(AreaName::Work), "{text} {work}");
    }
    Ok(wrote == Wrote::Done)
}

fn check_work(rt: &impl Abort, alloc: Global, rows: &[(&str, u64)]) -> Result<(), Fail> {
    for (text, visits) in rows {
        let enough = visits.saturating_mul(8).saturating_add(64);
        let done = is_done(rt, alloc, text, enough)?;
        assert!(rt; done, "{text}");
        for work in 0..*visits {
            is_done(rt, alloc, text, work)?;
        }
    }
    Ok(())
}

#[test]
fn the_work_area_bounds_the_write(rt: HostRuntime) -> Result<(), Fail> {
    check_work(&rt, rt.alloc(), &VISITS)?;
    for (work, done) in [(5, false), (6, true)] {
        let found = is_done(&rt, rt.alloc(), "f(g(X),Y)", work)?;
        assert_eq!(rt; found, done, "{work}");
    }
    Ok(())
}

#[test]
fn words_below_on_the_work_area_stay(rt: HostRuntime) -> Result<(), Fail> {
    let alloc = rt.alloc();
    let mut placed = Placed::new(alloc, "f(X,g(Y,X),[Z|Y])", 1000)?;
    for number in 0..5 {
        let pushed = placed.store.push_work(Word::of_int(number));
        assert!(rt; pushed.is_ok());
    }
    let (_wrote, _done, bytes) = placed.write(alloc, 1000)?;
    assert_eq!(rt; bytes.as_slice(), b"f(_0,g(_1,_0),[_2|_1])".as_slice());
    assert_eq!(rt; placed.store.work_len(), 5);
    for number in 0..5u64 {
        let word = placed.store.work(number).ok_or("no word")?;
        assert_eq!(rt; word.value(), number);
    }
    Ok(())
}

/// Makes each unbound cell a further place of the term itself.
fn close(placed: &mut Placed) -> Result<(), Fail> {
    for index in 0..placed.store.heap_len() {
        let cell = placed.store.cell(index).ok_or("no cell")?;
        if cell.tag() == Tag::Ref && placed.store.set_cell(index, placed.word).is_err() {
            return Err("no cell".into());
        }
    }
    Ok(())
}

fn check_cyclic(rt: &impl Abort, alloc: Global, text: &str, front: &str) -> Result<(), Fail> {
    let mut placed = Placed::new(alloc, text, 5000)?;
    close(&mut placed)?;
    let (wrote, done, bytes) = placed.write(alloc, 500)?;
    assert_eq!(rt; wrote, Wrote::Stopped, "{text}");
    assert_eq!(rt; done, 500, "{text}");
    assert!(rt; bytes.starts_with(front.as_bytes()), "{text}");
    assert_eq!(rt; placed.store.work_len(), 0, "{text}");
    Ok(())
}

#[test]
fn cyclic_terms_end_by_the_visits_left(rt: HostRuntime) -> Result<(), Fail> {
    for (text, front) in [
        ("f(X)", "f(f(f(f("),
        ("[1|X]", "[1,1,1,1,"),
        ("[X]", "[[[[[["),
        ("1+X", "1+(1+(1+("),
        ("-X", "- - - - "),
        ("{X}", "{{{{{{{"),
        ("f(a,X,b)", "f(a,f(a,f(a,"),
    ] {
        check_cyclic(&rt, rt.alloc(), text, front)?;
    }
    Ok(())
}

#[test]
fn a_cyclic_left_operand_fills_the_work_area(rt: HostRuntime) -> Result<(), Fail> {
    let alloc = rt.alloc();
    let mut placed = Placed::new(alloc, "X+1", 300)?;
    close(&mut placed)?;
    let (wrote, done, _bytes) = placed.write(alloc, 1000)?;
    assert_eq!(rt; wrote, Wrote::Full(AreaName::Work));
    assert!(rt; done.saturating_mul(8) > 300 - 64);
    assert_eq!(rt; placed.store.work_len(), 0);
    Ok(())
}

fn check_stray(rt: &impl Abort, alloc: Global, word: Word) -> Result<(), Fail> {
    let mut placed = Placed::new(alloc, "f(1)", 100)?;
    let pushed = placed.store.push_heap(Word::of(Tag::Hol, 0));
    assert!(rt; pushed.is_ok());
    placed.word = word;
    let (wrote, _done, _bytes) = placed.write(alloc, 1000)?;
    assert_eq!(rt; wrote, Wrote::Stray);
    assert_eq!(rt; placed.store.work_len(), 0);
    Ok(())
}

#[test]
fn words_that_stand_for_no_term_are_stray(rt: HostRuntime) -> Result<(), Fail> {
    for (tag, value) in [
        (Tag::Ref, 3),
        (Tag::Ref, 2),
        (Tag::Lst, 2),
        (Tag::Str, 1),
        (Tag::Str, 3),
        (Tag::Hol, 0),
        (Tag::Fun, 257),
        (Tag::Atm, 4_294_967_296),
    ] {
        if tag != Tag::Int {
            check_stray(&rt, rt.alloc(), Word::of(tag, value))?;
        }
    }
    Ok(())
}

/// A sink that takes one byte a call and fails at the call with this number.
fn failing_sink(alloc: Global, call: u64) -> Result<MemorySink, Fail> {
    let mut failing = Vec::new(alloc);
    failing.push(call)?;
    Ok(MemorySink::new(alloc, MANY, 1, failing)?)
}

fn check_fault(
    rt: &impl Abort,
    alloc: Global,
    placed: &mut Placed,
    taken: &[u8],
) -> Result<(), Fail> {
    let mut sink = failing_sink(alloc, (taken.len() as u64).saturating_add(1))?;
    let mut begun = false;
    let mut left = 1000;
    let wrote = write_words(
        &mut placed.store,
        &placed.atoms,
        placed.word,
        true,
        1200,
        &mut sink,
        &mut begun,
        &mut left,
    );
    assert_eq!(rt; wrote, Wrote::Failed);
    assert_eq!(rt; sink.bytes(), taken);
    assert_eq!(rt; placed.store.work_len(), 0);
    Ok(())
}

#[test]
fn faults_of_the_sink_end_the_write(rt: HostRuntime) -> Result<(), Fail> {
    let alloc = rt.alloc();
    let mut placed = Placed::new(alloc, "f(X,'A b',[1,Y|X],-(1)+a*b)", 1000)?;
    let (_wrote, _done, bytes) = placed.write(alloc, 1000)?;
    for call in 0..bytes.len() {
        check_fault(&rt, alloc, &mut placed, &bytes.as_slice()[..call])?;
    }
    Ok(())
}
