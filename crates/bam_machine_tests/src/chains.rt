use crate::fronts::ONE;
use crate::harness::{lines_of, output, runs_of};
use aq_base::limits::Limits;
use std::alloc::Global;
use std::process::Abort;
use std::test::Fail;

/// Atoms that a chain tests for, one of them twice.
const ATOMS: [&str; 20] = [
    "'a'", "'b'", "'c'", "'d'", "'e'", "'b'", "'f'", "'g'", "'h'", "'i'", "'j'", "'k'", "'l'",
    "'m'", "'n'", "'o'", "'p'", "'q'", "'r'", "'s'",
];

/// Integers that a chain tests for.
const INTEGERS: [&str; 20] = [
    "0",
    "1",
    "-1",
    "2",
    "-2",
    "3",
    "-3",
    "4",
    "-4",
    "5",
    "-5",
    "6",
    "-6",
    "7",
    "-7",
    "8",
    "-8",
    "9",
    "-9",
    "9223372036854775807",
];

/// A chain of tests of a kind for words in this order, behind a switch that comes to it. Each goes on with `return`, the last
/// one otherwise at a target.
fn chain(
    alloc: Global,
    switch: &str,
    kind: &str,
    words: &[&str],
    target: &str,
) -> Result<String, Fail> {
    let mut text = format!(in alloc; "deref r0 r0 / switch r0 var=- {switch} lst=- str=-")?;
    for (number, word) in words.iter().enumerate() {
        let label = format!(in alloc; " / label {number} - a0:ground r0:{kind}=a0")?;
        text.push_str(label.as_str())?;
        let next = number.saturating_add(1);
        let test = if next < words.len() {
            format!(in alloc; " / match r0 {word} {next} / return")?
        } else {
            format!(in alloc; " / match r0 {word} {target} / return")?
        };
        text.push_str(test.as_str())?;
    }
    Ok(text)
}

/// Queries of chains, each with what `runs_of` takes behind them.
const ATOM_RUNS: &str = "\
p(a) | 6 0 0 0 0 | true / ; / no / % code 42 steps 6 choices 0
p(b) | 7 0 0 0 0 | true / ; / no / % code 42 steps 7 choices 0
p(f) | 12 0 0 0 0 | true / ; / no / % code 42 steps 12 choices 0
p(s) | 25 0 0 0 0 | true / ; / no / % code 42 steps 25 choices 0
p(z) | 22 0 0 0 0 | no / % code 42 steps 22 choices 0
p(1) | 2 0 0 0 0 | no / % code 42 steps 2 choices 0";

const INTEGER_RUNS: &str = "\
p(0) | 6 0 0 0 0 | true / ; / no / % code 42 steps 6 choices 0
p(-1) | 8 0 0 0 0 | true / ; / no / % code 42 steps 8 choices 0
p(9223372036854775807) | 25 0 0 0 0 | true / ; / no / % code 42 steps 25 choices 0
p(-9223372036854775808) | 22 0 0 0 0 | no / % code 42 steps 22 choices 0
p(a) | 2 0 0 0 0 | no / % code 42 steps 2 choices 0";

fn runs_of_chain(rt: &impl Abort, alloc: Global, chain: &str, table: &str) -> Result<(), Fail> {
    for row in table.lines() {
        let row = format!(in alloc; "{chain} | {row}")?;
        runs_of(rt, alloc, ONE, row.as_str())?;
    }
    Ok(())
}

#[test]
fn each_test_of_a_chain_is_a_step(rt: HostRuntime) -> Result<(), Fail> {
    let alloc = rt.alloc();
    let atoms = chain(alloc, "atm=0 int=-", "atm", &ATOMS, "-")?;
    runs_of_chain(&rt, alloc, atoms.as_str(), ATOM_RUNS)?;
    let integers = chain(alloc, "atm=- int=0", "int", &INTEGERS, "-")?;
    runs_of_chain(&rt, alloc, integers.as_str(), INTEGER_RUNS)
}

#[test]
fn a_chain_goes_on_behind_its_last_test(rt: HostRuntime) -> Result<(), Fail> {
    let alloc = rt.alloc();
    let atoms = chain(alloc, "atm=0 int=-", "atm", &ATOMS, "20")?;
    let text = format!(in alloc; "{atoms} / label 20 - a0:ground / return")?;
    runs_of_chain(
        &rt,
        alloc,
        text.as_str(),
        "p(z) | 25 0 0 0 0 | true / ; / no / % code 43 steps 25 choices 0",
    )
}

#[test]
fn a_limit_inside_a_chain_stops_there(rt: HostRuntime) -> Result<(), Fail> {
    let alloc = rt.alloc();
    let atoms = chain(alloc, "atm=0 int=-", "atm", &ATOMS, "-")?;
    let text = lines_of(alloc, format!(in alloc; "{ONE} / {atoms} / end")?.as_str())?;
    let limits = Limits {
        steps: 10,
        ..Limits::default_limits()
    };
    assert_eq!(rt;
        output(alloc, text.as_str(), "p(z)", &limits)?.as_str(),
        "limit: steps\n% code 42 steps 10 choices 0\n"
    );
    Ok(())
}
