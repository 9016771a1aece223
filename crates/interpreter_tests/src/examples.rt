//! Runs of whole programs, each with the query of its first line.

use crate::harness::compare;
use example_texts as texts;
use source_interpreter::agreement::Agreement;
use source_interpreter::interpreter::Bounds;
use std::alloc::Global;
use std::process::Abort;
use std::test::Fail;

/// How far the interpreter goes.
const BOUNDS: Bounds = Bounds {
    steps: 1_000_000,
    visits: 100_000,
};

/// What stands before the query in the first line of a text.
const MARK: &str = "% query: ";

/// The query of a text.
fn query_of(text: &str) -> Option<&str> {
    text.lines().next()?.strip_prefix(MARK)
}

/// Each run comes to its end, and both ways to the same bytes.
fn check(rt: &impl Abort, alloc: Global, programs: &[&str]) -> Result<(), Fail> {
    for program in programs {
        let query = query_of(program).ok_or("no query")?;
        let compared = compare(alloc, program, query, BOUNDS)?;
        assert_eq!(rt; compared.agreement, Agreement::Whole, "{query}");
    }
    Ok(())
}

#[test]
fn first_programs(rt: HostRuntime) -> Result<(), Fail> {
    let programs = [
        texts::BICYCLE_REPAIR,
        texts::FACTS,
        texts::HUFFMAN,
        texts::MATRICES,
        texts::ROUTES,
        texts::SIGHTINGS,
    ];
    check(&rt, rt.alloc(), &programs)
}

#[test]
fn second_programs(rt: HostRuntime) -> Result<(), Fail> {
    let programs = [
        texts::CALCULATOR,
        texts::FAMILY,
        texts::KNIGHTS_TOUR,
        texts::PARAGRAPH,
        texts::RUN_LENGTH,
        texts::SORTING,
    ];
    check(&rt, rt.alloc(), &programs)
}

#[test]
fn third_programs(rt: HostRuntime) -> Result<(), Fail> {
    let programs = [
        texts::DERIVATIVE,
        texts::FOOTPATHS,
        texts::LAMBDA_TYPES,
        texts::QUEENS,
        texts::SEARCH_TREE,
        texts::WHILE_LANGUAGE,
    ];
    check(&rt, rt.alloc(), &programs)
}

#[test]
fn fourth_programs(rt: HostRuntime) -> Result<(), Fail> {
    let programs = [
        texts::EXPRESSIONS,
        texts::HANOI,
        texts::LIFE,
        texts::RIVER_CROSSING,
        texts::SEND_MORE_MONEY,
        texts::ZEBRA,
    ];
    check(&rt, rt.alloc(), &programs)
}
