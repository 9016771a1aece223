ghost use Rattle.std.specs.Prelude.{◌<◌, length};

use crate::numbers::Numbers;
use aq_term::args::Args;
use aq_term::atom::Atom;
use aq_term::atoms::Atoms;
use aq_term::memory::Memory;
use aq_term::term::Term;
use prolog_reader::read::read_query;
use prolog_tokens::scan::query_tokens;
use prolog_writer::write_term;
use std::alloc::{AllocError, Global};
use std::test::Fail;

/// The names that atoms and compounds of the tests have.
const NAMES: &str =
    "a f foo_Bar9 . + - * / \\ ^ ** - , ; -> :- --> \\+ = \\= == is mod rem @< =.. << // {} ?- | ! [] $VAR é";

/// More than the names of any table here and than the bytes of any text.
const MANY: usize = 1_000_000;

fn names_of(alloc: Global, atoms: &mut Atoms) -> Result<Vec<Atom>, Memory>
    requires { length atoms.old < 1000 }
{
    let mut names = Vec::new(alloc);
    for name in NAMES.split_whitespace() {
        if atoms.len() < MANY {
            names.push(atoms.number(name)?)?;
        }
    }
    for name in ["", " ", "A b", "it's", "\n", "\\", "/*", "%", "x\u{1}y"] {
        if atoms.len() < MANY {
            names.push(atoms.number(name)?)?;
        }
    }
    Ok(names)
}

fn some_name(numbers: &mut Numbers, names: &[Atom]) -> Atom {
    let place = numbers.below(64) as usize;
    match names.get(place) {
        Some(name) => *name,
        None => Atom::LIST,
    }
}

fn leaf(numbers: &mut Numbers, names: &[Atom]) -> Term {
    match numbers.below(8) {
        0 | 1 => Term::Var(numbers.below(4)),
        2 => Term::Int(i64::from(numbers.below(20)) - 10),
        3 => Term::Int(i64::MAX),
        4 => Term::Int(i64::MIN),
        _ => Term::Atom(some_name(numbers, names)),
    }
}

/// Whether the name may stand before so many arguments: no compound is named `[]`, and `{}` has one argument.
fn takes(name: Atom, arity: usize) -> bool {
    name != Atom::NIL && (name != Atom::CURLY || arity == 1)
}

/// A term of at most so many nodes.
fn some_term(
    alloc: Global,
    numbers: &mut Numbers,
    names: &[Atom],
    nodes: u32,
) -> Result<Term, AllocError> {
    let mut made = Vec::new(alloc);
    for _ in 0..nodes {
        let arity = numbers.below(4) as usize;
        let name = some_name(numbers, names);
        if arity > 0 && arity <= made.len() && takes(name, arity) {
            let args = made.split_off(made.len() - arity)?;
            made.push(Term::Compound(name, Args::from_vec(args)))?;
        } else {
            made.push(leaf(numbers, names))?;
        }
    }
    match made.pop() {
        Some(term) => Ok(term),
        None => Ok(leaf(numbers, names)),
    }
}

/// Whether the second is the first with its variables numbered in order of first occurrence.
fn is_same(alloc: Global, first: &Term, second: &Term) -> Result<bool, AllocError> {
    let mut seen: Vec<u32> = Vec::new(alloc);
    let mut pairs = vec![in alloc; (first, second)]?;
    for _ in 0..MANY {
        let Some(pair) = pairs.pop() else {
            return Ok(true);
        };
        match pair {
            (Term::Var(number), Term::Var(read)) => {
                let place = match seen.iter().position(|known| known == number) {
                    Some(place) => place,
                    None => {
                        seen.push(*number)?;
                        seen.len() - 1
                    }
                };
                if place as u64 != u64::from(*read) {
                    return Ok(false);
                }
            }
            (Term::Int(value), Term::Int(read)) => {
                if value != read {
                    return Ok(false);
                }
            }
            (Term::Atom(name), Term::Atom(read)) => {
                if name != read {
                    return Ok(false);
                }
            }
            (Term::Compound(name, args), Term::Compound(read, read_args)) => {
                if name != read || args.len() != read_args.len() {
                    return Ok(false);
                }
                for both in args.as_slice().iter().zip(read_args.as_slice()).rev() {
                    pairs.push(both)?;
                }
            }
            _ => return Ok(false),
        }
    }
    Ok(false)
}

#[test]
fn what_is_written_with_quotes_reads_back(rt: HostRuntime) -> Result<(), Fail> {
    let alloc = rt.alloc();
    let mut atoms = Atoms::new(alloc)?;
    let names = names_of(alloc, &mut atoms)?;
    let mut numbers = Numbers { state: 1 };
    for round in 0..4_000u32 {
        let term = some_term(alloc, &mut numbers, &names, 1 + round % 16)?;
        let text = write_term(alloc, &term, &atoms, true, 1200)?;
        assert!(rt; text.len() < MANY && atoms.len() < MANY);
        let tokens = query_tokens(alloc, &text)?;
        let read = read_query(alloc, &tokens, &mut atoms)?;
        let same = is_same(alloc, &term, &read.term)?;
        assert!(rt; same, "in round {round}");
    }
    Ok(())
}
