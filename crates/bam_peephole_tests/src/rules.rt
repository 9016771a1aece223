//! Each rule alone, and what it leaves.

use crate::harness::{cleans, stays};
use std::test::Fail;

const MOVES: &str = "\
move r0 r0 / return | return
move r5 r0 / move r5 r5 / return | move r5 r0 / return
move r900 r0 / move r900 r900 / move r900 r900 / move r1 r900 / return | move r900 r0 / move r1 r900 / return";

const MOVES_THAT_STAY: &str = "\
move r0 r1 / return
allocate 1 / move y0 r0 / move r0 y0 / deallocate / return
allocate 2 / move y0 r0 / move y1 y0 / deallocate / return";

const LABELS: &str = "\
label 0 - a0:any a1:any / label 1 - a0:any a1:any / return | label 0 - a0:any a1:any / return
label 0 - a0:any a1:any r0:any=a0 / label 1 - a0:any a1:any / label 2 - a0:any a1:any / return | label 0 - a0:any a1:any / return
move r5 5 / match r5 6 0 / return / label 0 - a0:any a1:any r5:int / label 1 - a0:any a1:any / return | move r5 5 / match r5 6 0 / return / label 0 - a0:any a1:any / return
move r5 5 / match r5 6 1 / return / label 0 - a0:any a1:any r5:int / label 1 - a0:any a1:any / return | move r5 5 / match r5 6 0 / return / label 0 - a0:any a1:any / return
move r5 5 / match r5 6 0 / match r5 7 1 / return / label 0 - a0:any a1:any r5:int / label 1 - a0:any a1:any / return | move r5 5 / match r5 6 0 / match r5 7 0 / return / label 0 - a0:any a1:any / return
move r5 5 / switch r5 var=* atm=0 int=1 lst=- str=- / label 0 - a0:any a1:any / label 1 - a0:any a1:any / return | move r5 5 / switch r5 var=* atm=0 int=0 lst=- str=- / label 0 - a0:any a1:any / return
deref r5 r0 / switch r5 var=0 atm=1 int=2 lst=3 str=4 / label 0 - a0:any a1:any / label 1 - a0:any a1:any / label 2 - a0:any a1:any / label 3 - a0:any a1:any / label 4 - a0:any a1:any / return | deref r5 r0 / switch r5 var=0 atm=0 int=0 lst=0 str=0 / label 0 - a0:any a1:any / return
deref r5 r0 / switch r5 var=- atm=- int=- lst=- str=0 / label 0 - a0:any a1:any r5:direct / functor r5 'f'/1 1 / return / label 1 - a0:any a1:any / label 2 - a0:any a1:any / return | deref r5 r0 / switch r5 var=- atm=- int=- lst=- str=0 / label 0 - a0:any a1:any r5:direct / functor r5 'f'/1 1 / return / label 1 - a0:any a1:any / return";

const LABELS_THAT_STAY: &str = "\
label 0 - a0:any a1:any / return
unify r0 1 / label 0 - a0:any a1:any r1:any / unify r1 1 / return
label 0 - a0:any a1:any r0:any=a0 / unify r0 1 / label 1 - a0:any a1:any / return
try 2 0 / return / alt 0 - a0:any a1:any r0:any=a0 / retry 1 / return / alt 1 - a0:any a1:any / trust / return
allocate 1 / move y0 r0 / call 'plain'/0 / label 0 f1 a0:any a1:any y0:any=a0 / deallocate / return";

const JUMPS: &str = "\
jump 0 / label 0 - a0:any a1:any / return | label 0 - a0:any a1:any / return
jump - / label 0 - a0:any a1:any / return | jump -";

const JUMPS_TO_JUMPS: &str = "\
move r5 5 / match r5 6 0 / jump 1 / label 0 - a0:any a1:any r0:any=a0 r1:any=a1 / return / label 1 - a0:any a1:any r0:any=a0 r1:any=a1 / jump 2 / label 2 - a0:any a1:any r0:any=a0 r1:any=a1 / unify r0 1 / return | move r5 5 / match r5 6 0 / jump 1 / label 0 - a0:any a1:any r0:any=a0 r1:any=a1 / return / label 1 - a0:any a1:any r0:any=a0 r1:any=a1 / unify r0 1 / return
move r5 5 / match r5 6 0 / jump 1 / label 0 - a0:any a1:any r0:any=a0 r1:any=a1 / jump 2 / label 1 - a0:any a1:any r0:any=a0 r1:any=a1 / jump 3 / label 2 - a0:any a1:any r0:any=a0 r1:any=a1 / unify r1 1 / return / label 3 - a0:any a1:any r0:any=a0 r1:any=a1 / unify r0 1 / return | move r5 5 / match r5 6 0 / jump 1 / label 0 - a0:any a1:any r0:any=a0 r1:any=a1 / unify r1 1 / return / label 1 - a0:any a1:any r0:any=a0 r1:any=a1 / unify r0 1 / return
move r5 5 / match r5 6 0 / jump 1 / label 0 - a0:any a1:any / return / label 1 - a0:any a1:any / jump - | move r5 5 / match r5 6 0 / jump - / label 0 - a0:any a1:any / return";

const JUMPS_THAT_STAY: &str = "\
jump -
move r5 5 / match r5 6 0 / jump 1 / label 0 - a0:any a1:any r0:any=a0 r1:any=a1 / unify r0 1 / label 1 - a0:any a1:any r0:any=a0 r1:any=a1 / return
move r5 5 / match r5 6 0 / return / label 0 - a0:any a1:any / jump -
move r5 5 / match r5 6 0 / match r5 7 1 / jump 2 / label 0 - a0:any a1:any r0:any=a0 r1:any=a1 / jump 2 / label 1 - a0:any a1:any r0:any=a0 r1:any=a1 / unify r0 1 / label 2 - a0:any a1:any r0:any=a0 r1:any=a1 / return";

const UNREACHED: &str = "\
return / label 0 - a0:any a1:any r0:any=a0 r1:any=a1 / unify r0 1 / return | return
fail / label 0 - a0:any a1:any / return | fail
exec 'plain'/0 / label 0 - a0:any a1:any / return | exec 'plain'/0
raise 1 / label 0 - a0:any a1:any / return | raise 1
move r5 5 / switch r5 var=* atm=- int=- lst=- str=- / label 0 - a0:any a1:any / return | move r5 5 / switch r5 var=* atm=- int=- lst=- str=-
return / label 0 - a0:any a1:any r5:int / match r5 1 1 / return / label 1 - a0:any a1:any / return | return
return / alt 0 - a0:any a1:any / trust / return | return
return / alt 0 - a0:any a1:any / retry 1 / return / alt 1 - a0:any a1:any / trust / return | return
return / label 0 - a0:any a1:any / try 0 1 / return / alt 1 - a0:any a1:any / trust / return | return
try 2 1 / return / label 0 - a0:any a1:any / return / alt 1 - a0:any a1:any / trust / return | try 2 0 / return / alt 0 - a0:any a1:any / trust / return
try 2 0 / return / alt 0 - a0:any a1:any / trust / return / alt 1 - a0:any a1:any / return | try 2 0 / return / alt 0 - a0:any a1:any / trust / return";

const CATCHERS: &str = "\
catch 1 0 / uncatch / return / ball 0 - a0:any a1:any / return / ball 1 - a0:any a1:any / return | catch 1 0 / uncatch / return / ball 0 - a0:any a1:any / return
catch 1 1 / uncatch / return / label 0 - a0:any a1:any / return / ball 1 - a0:any a1:any / return | catch 1 0 / uncatch / return / ball 0 - a0:any a1:any / return
catch 1 0 / uncatch / return / ball 0 - a0:any a1:any r0:any=a0 / unify r0 r1 / move r0 r0 / return | catch 1 0 / uncatch / return / ball 0 - a0:any a1:any r0:any=a0 / unify r0 r1 / return";

const CATCHERS_THAT_STAY: &str = "\
catch 1 0 / uncatch / return / ball 0 - a0:any a1:any / return
catch 1 0 / uncatch / catch 0 1 / uncatch / return / ball 0 - a0:any a1:any / return / ball 1 - a0:any a1:any / return";

const TWO: &str = "'p'/2 any any -> any any";

#[test]
fn moves_in_place(rt: HostRuntime) -> Result<(), Fail> {
    cleans(&rt, rt.alloc(), "1", TWO, MOVES)?;
    stays(&rt, rt.alloc(), "1", TWO, MOVES_THAT_STAY)
}

#[test]
fn labels_side_by_side(rt: HostRuntime) -> Result<(), Fail> {
    cleans(&rt, rt.alloc(), "1", TWO, LABELS)?;
    stays(&rt, rt.alloc(), "1", TWO, LABELS_THAT_STAY)
}

#[test]
fn jumps(rt: HostRuntime) -> Result<(), Fail> {
    cleans(&rt, rt.alloc(), "1", TWO, JUMPS)?;
    cleans(&rt, rt.alloc(), "1", TWO, JUMPS_TO_JUMPS)?;
    stays(&rt, rt.alloc(), "1", TWO, JUMPS_THAT_STAY)
}

#[test]
fn lines_that_no_run_comes_to(rt: HostRuntime) -> Result<(), Fail> {
    cleans(&rt, rt.alloc(), "1", TWO, UNREACHED)
}

#[test]
fn balls(rt: HostRuntime) -> Result<(), Fail> {
    cleans(&rt, rt.alloc(), "2", TWO, CATCHERS)?;
    stays(&rt, rt.alloc(), "2", TWO, CATCHERS_THAT_STAY)
}
