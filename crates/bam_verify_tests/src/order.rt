//! The order of types: a label that is never gone to, and one that is gone on to from there.

use crate::harness::{answer, text_of};
use std::alloc::Global;
use std::process::Abort;
use std::test::Fail;

/// Each type, and the types of which each such place is.
const ORDER: &str = "\
any < any
head < head any
var < var head any
nonvar < nonvar any
direct < direct nonvar head any
ground < ground nonvar any
gdirect < gdirect ground direct nonvar head any
full < full gdirect ground direct nonvar head any
int < int full gdirect ground direct nonvar head any
atm < atm full gdirect ground direct nonvar head any
lst < lst direct nonvar head any
glst < glst lst gdirect ground direct nonvar head any
flst < flst glst lst full gdirect ground direct nonvar head any
str:'f'/1 < str:'f'/1 direct nonvar head any
gstr:'f'/1 < gstr:'f'/1 str:'f'/1 gdirect ground direct nonvar head any
fstr:'f'/1 < fstr:'f'/1 gstr:'f'/1 str:'f'/1 full gdirect ground direct nonvar head any
str:'f'/2 < str:'f'/2 direct nonvar head any
gstr:'f'/2 < gstr:'f'/2 str:'f'/2 gdirect ground direct nonvar head any
fstr:'f'/2 < fstr:'f'/2 gstr:'f'/2 str:'f'/2 full gdirect ground direct nonvar head any
fstr:'g'/1 < fstr:'g'/1 full gdirect ground direct nonvar head any
bar < bar
cell:any < cell:any any
cell:head < cell:head any
cell:nonvar < cell:nonvar nonvar any
cell:direct < cell:direct nonvar any
cell:ground < cell:ground ground nonvar any
cell:gdirect < cell:gdirect ground nonvar any
cell:full < cell:full ground nonvar any
cell:lst < cell:lst nonvar any
cell:fstr:'f'/1 < cell:fstr:'f'/1 ground nonvar any
part:any < part:any
part:full < part:full
part:lst < part:lst
part:flst < part:flst
part:str:'f'/1 < part:str:'f'/1";

/// The types of a hole, each of which is that of no other.
const HOLES: &str = "\
any head var nonvar direct ground gdirect full int atm lst glst flst str:'f'/1 gstr:'f'/1 fstr:'f'/1 str:'f'/2 bar";

/// Whether a word is in a row of words.
fn has(row: &str, wanted: &str) -> bool {
    row.split(' ').any(|word| word == wanted)
}

fn assert_below(
    rt: &impl Abort,
    alloc: Global,
    lower: &str,
    uppers: &str,
    upper: &str,
) -> Result<(), Fail> {
    let lines = format!(in alloc; "fail / label 0 - r0:{lower} / label 1 - r0:{upper} / fail")?;
    let text = text_of(alloc, "1", "'p'/0 ->", lines.as_str())?;
    let given = answer(alloc, text.as_str())?;
    let wanted = if has(uppers, upper) {
        "accepted"
    } else {
        "3 state"
    };
    assert_eq!(rt; given.as_str(), wanted, "{lower} below {upper}");
    Ok(())
}

fn assert_row(rt: &impl Abort, alloc: Global, lower: &str, uppers: &str) -> Result<(), Fail> {
    for row in ORDER.lines() {
        let (upper, _others) = row.split_once(" < ").ok_or("no order")?;
        assert_below(rt, alloc, lower, uppers, upper)?;
    }
    Ok(())
}

#[test]
fn each_pair_of_types(rt: HostRuntime) -> Result<(), Fail> {
    for row in ORDER.lines() {
        let (lower, uppers) = row.split_once(" < ").ok_or("no order")?;
        assert_row(&rt, rt.alloc(), lower, uppers)?;
    }
    Ok(())
}

fn assert_hole(rt: &impl Abort, alloc: Global, lower: &str, upper: &str) -> Result<(), Fail> {
    let lines = format!(in alloc;
        "fail / label 0 - r0:hole:{lower}=a0 / label 1 - r0:hole:{upper}=a0 / fail"
    )?;
    let text = text_of(alloc, "1", "'p'/1 out -> any", lines.as_str())?;
    let given = answer(alloc, text.as_str())?;
    let wanted = if lower == upper {
        "accepted"
    } else {
        "3 state"
    };
    assert_eq!(rt; given.as_str(), wanted, "hole of {lower} below {upper}");
    Ok(())
}

fn assert_holes(rt: &impl Abort, alloc: Global, lower: &str) -> Result<(), Fail> {
    for upper in HOLES.split(' ') {
        assert_hole(rt, alloc, lower, upper)?;
    }
    Ok(())
}

#[test]
fn each_pair_of_holes(rt: HostRuntime) -> Result<(), Fail> {
    for lower in HOLES.split(' ') {
        assert_holes(&rt, rt.alloc(), lower)?;
    }
    Ok(())
}
