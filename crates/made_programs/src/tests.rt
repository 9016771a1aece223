use crate::program::made;
use std::alloc::Global;
use std::test::Fail;

/// How many programs are looked at.
const MANY: u32 = 300;

/// What stands somewhere in the programs: each construct and each built-in.
const CONSTRUCTS: [&str; 52] = [
    " :- ",
    "[]",
    "|",
    "'",
    "( ",
    " ; ",
    " -> ",
    "\\+ ",
    "!",
    "catch(",
    "throw(",
    "true",
    "fail",
    " = ",
    " \\= ",
    " == ",
    " \\== ",
    " @< ",
    " @=< ",
    " @> ",
    " @>= ",
    "compare(",
    "var(",
    "nonvar(",
    "atom(",
    "integer(",
    "number(",
    "atomic(",
    "compound(",
    " is ",
    " + ",
    " - ",
    " * ",
    " // ",
    " mod ",
    " rem ",
    " << ",
    " >> ",
    " /\\ ",
    " \\/ ",
    "\\ (",
    " =:= ",
    " =\\= ",
    " < ",
    " >= ",
    "functor(",
    "arg(",
    " =.. ",
    "copy_term(",
    "writeq(",
    "put_char(",
    "nl",
];

/// The texts of many programs, one behind the other.
fn texts(alloc: Global, first: u32) -> Result<String, Fail> {
    let mut texts = String::new(alloc);
    for number in 0..MANY {
        let sample = made(alloc, first.saturating_add(number))?;
        texts.push_str(sample.program.as_str())?;
        texts.push_str("?- ")?;
        texts.push_str(sample.query.as_str())?;
        texts.push_str("\n")?;
    }
    Ok(texts)
}

#[test]
fn a_seed_always_makes_the_same(rt: HostRuntime) -> Result<(), Fail> {
    assert_eq!(rt;
        texts(rt.alloc(), 7)?.as_str(),
        texts(rt.alloc(), 7)?.as_str()
    );
    Ok(())
}

#[test]
fn seeds_make_different_programs(rt: HostRuntime) -> Result<(), Fail> {
    let alloc = rt.alloc();
    for seed in 0..MANY {
        let one = made(alloc, seed)?;
        let next = made(alloc, seed.saturating_add(1))?;
        assert!(rt;
            one.program.as_str() != next.program.as_str(),
            "seed {seed}"
        );
    }
    Ok(())
}

#[test]
fn every_construct_is_made(rt: HostRuntime) -> Result<(), Fail> {
    let made = texts(rt.alloc(), 0)?;
    for construct in CONSTRUCTS {
        assert!(rt; made.as_str().contains(construct), "{construct}");
    }
    Ok(())
}
