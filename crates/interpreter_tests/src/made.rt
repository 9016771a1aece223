//! Programs made from seeds.

use crate::harness::{Compared, compare};
use made_programs::program::{MadeProgram, made};
use source_interpreter::agreement::Agreement;
use source_interpreter::interpreter::Bounds;
use std::alloc::Global;
use std::process::Abort;
use std::test::Fail;

/// How many programs a test takes.
const MANY: u32 = 1_000;

/// How many of them run to their ends both ways, at least.
const MOST_WHOLE: u32 = 800;

/// How far the interpreter goes.
const BOUNDS: Bounds = Bounds {
    steps: 10_000,
    visits: 5_000,
};

/// Compares the runs of the programs of the seeds from `first` on.
fn check(rt: &impl Abort, alloc: Global, first: u32) -> Result<(), Fail> {
    let mut whole: u32 = 0;
    for seed in first..first.saturating_add(MANY) {
        let made = made(alloc, seed)?;
        let compared = compare(alloc, made.program.as_str(), made.query.as_str(), BOUNDS)?;
        assert_agreement(rt, seed, &made, &compared)?;
        if compared.agreement == Agreement::Whole {
            whole = whole.saturating_add(1);
        }
    }
    assert!(rt; whole >= MOST_WHOLE, "{whole} whole runs from {first} on");
    Ok(())
}

/// Both runs wrote the same, as far as both went.
fn assert_agreement(
    rt: &impl Abort,
    seed: u32,
    made: &MadeProgram,
    compared: &Compared,
) -> Result<(), Fail> {
    let program = made.program.as_str();
    let query = made.query.as_str();
    let interpreted = text_of(&compared.interpreted)?;
    let compiled = text_of(&compared.compiled)?;
    assert!(rt;
        compared.agreement != Agreement::None,
        "seed {seed}, {query} on\n{program}\ninterpreted:\n{interpreted}\ncompiled:\n{compiled}"
    );
    Ok(())
}

fn text_of(bytes: &Vec<u8>) -> Result<&str, Fail> {
    Ok(str::from_utf8(bytes.as_slice()).ok().ok_or("no text")?)
}

#[test]
fn made_from_0(rt: HostRuntime) -> Result<(), Fail> {
    check(&rt, rt.alloc(), 0)
}

#[test]
fn made_from_1000(rt: HostRuntime) -> Result<(), Fail> {
    check(&rt, rt.alloc(), 1_000)
}

#[test]
fn made_from_2000(rt: HostRuntime) -> Result<(), Fail> {
    check(&rt, rt.alloc(), 2_000)
}

#[test]
fn made_from_3000(rt: HostRuntime) -> Result<(), Fail> {
    check(&rt, rt.alloc(), 3_000)
}

#[test]
fn made_from_4000(rt: HostRuntime) -> Result<(), Fail> {
    check(&rt, rt.alloc(), 4_000)
}
