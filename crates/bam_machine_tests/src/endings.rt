use crate::harness::{lines_of, output, outputs};
use aq_base::limits::Limits;
use std::test::Fail;

/// A procedure that calls itself with an ever deeper term.
const GROWS: &str =
    "bam 1 / entry 'l'/1 any / proc 'l'/1 any -> any / str r1 'f'/1 / push r0 / move r0 r1 / exec 'l'/1 / end";

fn with_heap(heap: u64) -> Limits {
    Limits {
        heap,
        ..Limits::default_limits()
    }
}

#[test]
fn a_term_that_grows_meets_the_heap_limit_at_its_word(rt: HostRuntime) -> Result<(), Fail> {
    let alloc = rt.alloc();
    let text = lines_of(alloc, GROWS)?;
    let given = output(alloc, text.as_str(), "l(a)", &with_heap(63))?;
    assert_eq!(rt;
        given.as_str(),
        "limit: heap\n% code 4 steps 126 choices 0\n"
    );
    let given = output(alloc, text.as_str(), "l(a)", &with_heap(64))?;
    assert_eq!(rt;
        given.as_str(),
        "limit: heap\n% code 4 steps 129 choices 0\n"
    );
    let given = output(alloc, text.as_str(), "l(a)", &with_heap(65))?;
    assert_eq!(rt;
        given.as_str(),
        "limit: heap\n% code 4 steps 130 choices 0\n"
    );
    Ok(())
}

/// Lines of procedures with one argument, whose terms are cyclic.
const CYCLIC: &str = "\
bam 1 / entry 'p'/1 any / proc 'p'/1 any -> any / str r1 'f'/1 / push r0 / unify r0 r1 / return / end | p(X)
bam 1 / entry 'p'/1 any / proc 'p'/1 any -> any / str r1 'f'/1 / push r0 / unify r0 r1 / builtin 'write'/1 / return / end | p(X)
bam 1 / entry 'p'/1 any / proc 'p'/1 any -> any / str r1 'f'/1 / push r0 / unify r0 r1 / same eq r0 r1 / return / end | p(X)
bam 1 / entry 'p'/1 any / proc 'p'/1 any -> any / lst r1 / push r0 / push r0 / unify r0 r1 / builtin 'writeq'/1 / return / end | p(X)
bam 2 / entry 'p'/1 any / proc 'p'/1 any -> any / str r1 'f'/1 / push r0 / unify r0 r1 / raise r0 / end | p(X)
bam 2 / entry 'p'/1 any / proc 'p'/1 any -> any / catch 1 0 / allocate 1 / call 'q'/1 / uncatch / deallocate / return / ball 0 - a0:any / fail / end / proc 'q'/1 any -> any / str r1 'f'/1 / push r0 / unify r0 r1 / raise r0 / end | p(X)
bam 1 / entry 'p'/2 any any / proc 'p'/2 any any -> any any / str r2 'f'/1 / push r0 / unify r0 r2 / str r3 'f'/1 / push r1 / unify r1 r3 / unify r0 r1 / return / end | p(X,Y)
bam 1 / entry 'p'/2 any any / proc 'p'/2 any any -> any any / str r2 'f'/1 / push r0 / unify r0 r2 / builtin 'copy_term'/2 / return / end | p(X,Y)
bam 1 / entry 'p'/2 any any / proc 'p'/2 any any -> any any / str r2 'f'/1 / push r0 / unify r0 r2 / str r3 'f'/1 / push r1 / unify r1 r3 / builtin '@<'/2 / return / end | p(X,Y)";

#[test]
fn cyclic_terms_end_by_the_step_limit_alone(rt: HostRuntime) -> Result<(), Fail> {
    let alloc = rt.alloc();
    let limits = Limits {
        steps: 1_000,
        ..Limits::default_limits()
    };
    for row in CYCLIC.lines() {
        let (text, query) = row.split_once(" | ").ok_or("no query")?;
        let text = lines_of(alloc, text)?;
        let given = output(alloc, text.as_str(), query, &limits)?;
        assert!(rt; given.contains("limit: steps\n"), "{row}");
        assert!(rt; given.contains(" steps 1000 choices 0\n"), "{row}");
    }
    Ok(())
}

/// Texts and queries that are refused.
const REFUSED: &str = "\
bam 1 / entry 'p'/0 / import 'q'/0 -> / proc 'p'/0 -> / exec 'q'/0 / end | p | refused: import 1: undefined
bam 1 / entry 'p'/0 / proc 'p'/0 -> / return / end | q | refused: query not entry
bam 1 / entry 'p'/0 / proc 'p'/0 -> / return / end | p( | refused: query syntax
bam 1 / entry 'p'/1 ground / proc 'p'/1 full -> ground / return / end | p(f(X)) | refused: query mode 1
bam 1 / entry 'p'/0 / proc 'p'/0 -> / move r0 r1 / return / end | p | refused: proc 1 line 1: unset
bam 1 / entry 'p'/0 / proc 'p'/0 -> / halt / end | p | refused: line 4";

#[test]
fn texts_and_queries_are_refused_before_a_run(rt: HostRuntime) -> Result<(), Fail> {
    outputs(&rt, rt.alloc(), REFUSED)
}
