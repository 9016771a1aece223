ghost use Rattle.std.specs.Prelude.{◌<◌, length};

use crate::bench::{MANY, Manner, load, open_store, read_term, whole, write};
use crate::numbers::Numbers;
use crate::text_rows::TEXT_ROWS;
use answer_io::wrote::Wrote;
use aq_term::args::Args;
use aq_term::atom::Atom;
use aq_term::atoms::Atoms;
use aq_term::memory::Memory;
use aq_term::term::Term;
use prolog_writer::write_term;
use std::alloc::{AllocError, Global};
use std::process::Abort;
use std::test::Fail;

/// The text of a term, written from words on a store of its own, of which nothing is left on the work area.
fn text_of(
    rt: &impl Abort,
    alloc: Global,
    atoms: &Atoms,
    term: &Term,
    variables: usize,
    manner: Manner,
) -> Result<Vec<u8>, Fail> {
    let mut store = open_store(alloc, 100_000, 100_000)?;
    let word = load(alloc, &mut store, term, variables)?;
    let cells = store.heap_len();
    if manner.piece == 0 {
        return Err("a sink that takes nothing".into());
    }
    let written = write(alloc, &mut store, atoms, word, manner)?;
    assert_eq!(rt; written.wrote, Wrote::Done);
    assert_eq!(rt; store.work_len(), 0);
    assert_eq!(rt; store.heap_len(), cells);
    Ok(Vec::from_slice(alloc, written.sink.bytes())?)
}

/// The text of the term of a text.
fn rewritten(rt: &impl Abort, alloc: Global, text: &str, quoted: bool) -> Result<Vec<u8>, Fail> {
    let mut atoms = Atoms::new(alloc)?;
    let (term, variables) = read_term(alloc, &mut atoms, text)?;
    text_of(rt, alloc, &atoms, &term, variables, whole(quoted))
}

fn check_rows(rt: &impl Abort, alloc: Global, rows: &[(&str, &str, &str)]) -> Result<(), Fail> {
    for (text, plain, quoted) in rows {
        let found = rewritten(rt, alloc, text, false)?;
        assert_eq!(rt; found.as_slice(), plain.as_bytes(), "{text}");
        let found = rewritten(rt, alloc, text, true)?;
        assert_eq!(rt; found.as_slice(), quoted.as_bytes(), "{text}");
    }
    Ok(())
}

#[test]
fn terms_have_their_texts(rt: HostRuntime) -> Result<(), Fail> {
    check_rows(&rt, rt.alloc(), &TEXT_ROWS)
}

/// The names that atoms and compounds of the tests have.
const NAMES: &str =
    "a f foo_Bar9 . + - * / \\ ^ ** - , ; -> :- --> \\+ = \\= == is mod rem @< =.. << // {} ?- | ! [] $VAR é";

fn names_of(alloc: Global, atoms: &mut Atoms) -> Result<Vec<Atom>, Memory>
    requires { length atoms.old < 1000 }
{
    let mut names = Vec::new(alloc);
    for name in NAMES.split_whitespace() {
        if atoms.len() < MANY {
            names.push(atoms.number(name)?)?;
        }
    }
    for name in ["", " ", "A b", "it's", "\n", "\\", "/*", "%", "x\u{1}y"] {
        if atoms.len() < MANY {
            names.push(atoms.number(name)?)?;
        }
    }
    Ok(names)
}

fn some_name(numbers: &mut Numbers, names: &[Atom]) -> Atom {
    let place = numbers.below(64) as usize;
    match names.get(place) {
        Some(name) => *name,
        None => Atom::LIST,
    }
}

fn leaf(numbers: &mut Numbers, names: &[Atom]) -> Term {
    match numbers.below(8) {
        0 | 1 => Term::Var(numbers.below(4)),
        2 => Term::Int(i64::from(numbers.below(20)) - 10),
        3 => Term::Int(i64::MAX),
        4 => Term::Int(i64::MIN),
        _ => Term::Atom(some_name(numbers, names)),
    }
}

/// A term of at most so many nodes.
fn some_term(
    alloc: Global,
    numbers: &mut Numbers,
    names: &[Atom],
    nodes: u32,
) -> Result<Term, AllocError> {
    let mut made = Vec::new(alloc);
    for _ in 0..nodes {
        let arity = numbers.below(4) as usize;
        let name = some_name(numbers, names);
        if arity > 0 && arity <= made.len() {
            let args = made.split_off(made.len() - arity)?;
            made.push(Term::Compound(name, Args::from_vec(args)))?;
        } else {
            made.push(leaf(numbers, names))?;
        }
    }
    match made.pop() {
        Some(term) => Ok(term),
        None => Ok(leaf(numbers, names)),
    }
}

#[test]
fn words_are_written_as_their_terms(rt: HostRuntime) -> Result<(), Fail> {
    let alloc = rt.alloc();
    let mut atoms = Atoms::new(alloc)?;
    let names = names_of(alloc, &mut atoms)?;
    let mut numbers = Numbers { state: 1 };
    for round in 0..4_000u32 {
        let term = some_term(alloc, &mut numbers, &names, 1 + round % 24)?;
        let manner = Manner {
            quoted: round % 2 == 0,
            most: [0, 200, 399, 699, 999, 1200][(round % 6) as usize],
            visits: 1_000_000,
            piece: 7,
        };
        let text = write_term(alloc, &term, &atoms, manner.quoted, manner.most)?;
        let found = text_of(&rt, alloc, &atoms, &term, 4, manner)?;
        assert_eq!(rt; found, text, "in round {round}");
    }
    Ok(())
}

#[test]
fn deep_terms_and_long_names_are_written(rt: HostRuntime) -> Result<(), Fail> {
    let alloc = rt.alloc();
    let mut atoms = Atoms::new(alloc)?;
    let name = atoms.number(
        "a name that is longer than what is gathered: it has to go to the sink in pieces, with those before it and those behind it in their order, and it is long enough for that only where it has more than 256 bytes, which it now has, since it goes on and on, and on",
    )?;
    let mut term = Term::Atom(Atom::NIL);
    for depth in 0..4_000u32 {
        let mut args = Vec::new(alloc);
        match depth % 3 {
            0 => args.push(term)?,
            1 => {
                args.push(term)?;
                args.push(Term::Var(depth % 5))?;
            }
            _ => {
                args.push(Term::Int(1))?;
                args.push(term)?;
            }
        }
        let name = [Atom::MINUS, Atom::PLUS, Atom::LIST, name][(depth % 4) as usize];
        term = Term::Compound(name, Args::from_vec(args));
    }
    let text = write_term(alloc, &term, &atoms, true, 1200)?;
    let found = text_of(&rt, alloc, &atoms, &term, 5, whole(true))?;
    assert_eq!(rt; found, text);
    Ok(())
}
