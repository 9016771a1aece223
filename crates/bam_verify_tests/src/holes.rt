//! Holes of results, holes that lines make, and the structures and cells around them.

use crate::harness::answers;
use std::test::Fail;

/// A procedure of an argument of any kind and a result that is full.
const OWN: &str = "\
fill r1 5 / return | accepted
return | 1 hole
fill r1 #0 / return | accepted
fill r1 r0 / return | 1 tag
fill r0 5 / return | 1 tag
fill r2 5 / return | 1 unset
fill r1 r2 / return | 1 unset
fill r1 y0 / return | 1 frame
fill r1 5 / fill r1 5 / return | 2 unset
move r2 r1 / fill r2 5 / return | accepted
move r2 r1 / fill r2 5 / fill r1 5 / return | 3 unset
move r2 r1 / fill r1 5 / move r3 r2 / return | 3 unset
move r1 5 / return | 2 hole
move r1 5 / fail | accepted
fail | accepted
raise 5 | accepted
jump - | accepted
fill r1 r1 / return | 1 tag
push r1 / return | 1 tag
lst r2 / push r1 / push 5 / return | 2 tag
deref r2 r1 / return | 1 tag
unify r0 r1 / return | 1 tag
same eq r1 r1 / return | 1 tag
eval r2 r1 / return | 1 tag
cut r1 / return | 1 tag
move r0 r1 / builtin 'var'/1 / return | 2 tag
fresh r2 / bind r2 r1 / return | 2 tag
switch r1 var=- atm=- int=- lst=- str=- | 1 tag
eval r0 r0 / fill r1 r0 / return | accepted
eval r2 r0 / fill r1 r0 / return | 2 tag
lst r2 / push 1 / push 2 / fill r1 r2 / return | accepted
lst r2 / push 1 / push r0 / fill r1 r2 / return | 4 tag
mark r2 / fill r1 r2 / return | 2 tag
deref r2 r0 / fill r1 5 / switch r2 var=- atm=- int=- lst=- str=- | 3 tag
fresh r2 / fill r1 5 / bind r2 5 / return | 3 tag
fresh r2 / bind r2 5 / fill r1 5 / return | accepted
allocate 1 / move y0 r1 / fill r1 5 / move r1 y0 / deallocate / return | 4 unset
allocate 1 / move y0 r1 / move r2 y0 / fill r2 5 / move y0 r0 / deallocate / return | accepted
allocate 1 / move y0 r1 / fill y0 5 / deallocate / return | line 19
allocate 1 / deallocate / return | 3 hole
exec 'plain'/0 | 1 hole
fill r1 5 / exec 'plain'/0 | accepted
move r0 r1 / exec 'makes_full'/1 | accepted
move r0 r1 / exec 'makes'/1 | 2 call
exec 'takes'/2 | 1 call
fill r1 5 / hole r1 any / exec 'takes'/2 | accepted
label 0 - a0:any r1:hole:full=a1 / fill r1 5 / return | accepted
label 0 - a0:any / return | 1 hole
label 0 - a0:any r1:hole:any=a1 / return | 1 state
label 0 - a0:any r2:hole:full=a1 / return | 1 state
label 0 - a0:any r1:hole:full=a1 / return | 2 hole
label 0 - a0:any r0:hole:full=a1 r1:hole:full=a1 / return | 1 state
move r0 r1 / label 0 - a0:any r0:hole:full=a1 r1:hole:full=a1 / fill r0 5 / return | accepted
move r0 r1 / label 0 - a0:any r0:hole:full=a1 r1:hole:full=a1 / fill r0 5 / move r2 r1 / return | 4 unset
fill r1 5 / label 0 - a0:any / return | accepted
fill r1 5 / label 0 - a0:any r1:hole:full=a1 / fill r1 5 / return | 2 state
label 0 - a0:ground / return | 1 hole
jump 0 / label 0 - a0:any / return | 1 hole
jump 0 / label 0 - a0:any r1:hole:full=a1 / fill r1 5 / return | accepted
jump 0 / label 0 - a0:any r1:hole:any=a1 / fill r1 5 / return | 1 state
move r2 5 / match r2 5 0 / fail / label 0 - a0:any / return | 2 hole
move r2 5 / match r2 5 0 / fail / label 0 - a0:any r1:hole:full=a1 / fill r1 5 / return | accepted
move r2 5 / functor r2 'f'/1 0 / fail / label 0 - a0:any / return | 2 hole
deref r2 r0 / switch r2 var=0 atm=- int=- lst=- str=- / label 0 - a0:any / return | 2 hole
deref r2 r0 / switch r2 var=- atm=0 int=- lst=- str=- / label 0 - a0:any / return | 2 hole
deref r2 r0 / switch r2 var=- atm=- int=- lst=- str=0 / label 0 - a0:ground / return | 2 hole
deref r2 r0 / switch r2 var=- atm=- int=- lst=0 str=- / label 0 - a0:any r1:hole:full=a1 / fill r1 5 / return | accepted
try 2 0 / fail / alt 0 - a0:any r1:hole:full=a1 / trust / fill r1 5 / return | accepted
try 2 0 / fail / alt 0 - a0:any / trust / return | 1 hole
try 1 0 / fail / alt 0 - a0:any r1:hole:full=a1 / trust / fill r1 5 / return | 1 choice
try 2 0 / fail / alt 0 - a0:any r1:hole:any=a1 / trust / fill r1 5 / return | 1 choice
try 2 0 / fail / alt 0 - a0:any r1:hole:full=a1 / retry 1 / fail / alt 1 - a0:any r1:hole:full=a1 / trust / fill r1 5 / return | accepted
try 2 0 / fail / alt 0 - a0:any r1:hole:full=a1 / retry 1 / fail / alt 1 - a0:any / trust / return | 4 hole
fill r1 5 / try 2 0 / return / alt 0 - a0:any / trust / return | accepted
try 2 0 / fill r1 5 / return / alt 0 - a0:any r1:hole:full=a1 / trust / return | 6 hole
allocate 1 / move y0 r1 / label 0 f1 a0:any y0:hole:full=a1 / move r1 y0 / fill r1 5 / deallocate / return | accepted
fail / label 0 - a0:any / return | accepted
fail / label 0 - a0:any r1:hole:int=a1 / fill r1 5 / return | accepted
fail / label 0 - a0:any r1:hole:int=a1 / fill r1 'a' / return | 3 tag
fail / label 0 - a0:any r1:hole:full / return | line 18
fail / label 0 - a0:any r1:hole:full=a0 / return | line 18
fail / label 0 - a0:any r1:full=a1 / return | line 18";

/// A procedure of an argument of any kind.
const MADE: &str = "\
hole r1 any / fill r1 5 / return | accepted
hole r1 any / return | 2 hole
hole r1 full / fill r1 r0 / return | 2 tag
hole r1 gdirect / fill r1 r0 / return | 2 tag
hole r1 ground / fill r1 r0 / return | 2 tag
hole r1 direct / fill r1 r0 / return | 2 tag
hole r1 nonvar / fill r1 r0 / return | 2 tag
hole r1 any / fill r1 r0 / return | accepted
builtin 'nonvar'/1 / hole r1 direct / fill r1 r0 / return | accepted
builtin 'nonvar'/1 / hole r1 nonvar / fill r1 r0 / return | accepted
builtin 'nonvar'/1 / hole r1 ground / fill r1 r0 / return | 3 tag
eval r9 r0 / hole r1 gdirect / fill r1 r0 / return | accepted
eval r9 r0 / hole r1 ground / fill r1 r0 / return | accepted
eval r9 r0 / hole r1 full / fill r1 r0 / return | 3 tag
fresh r2 / hole r1 any / fill r1 r2 / return | accepted
fresh r2 / hole r1 direct / fill r1 r2 / return | 3 tag
hole r1 any / hole r2 any / fill r1 5 / fill r2 5 / return | accepted
hole r1 any / hole r2 any / fill r1 5 / return | 4 hole
hole r1 any / hole r1 any / fill r1 5 / return | 4 hole
hole r1 any / move r2 r1 / fill r2 5 / return | accepted
hole r1 any / fail | 2 hole
hole r1 any / raise 5 | 2 hole
hole r1 any / jump - | 2 hole
hole r1 any / move r1 5 / fail | 3 hole
hole r1 any / exec 'plain'/0 | 2 hole
hole r1 any / move r0 r1 / exec 'makes'/1 | accepted
hole r0 any / exec 'makes'/1 / label 0 - a0:any / return | accepted
try 1 0 / hole r0 any / exec 'makes'/1 / alt 0 - a0:any r0:any=a0 / trust / return | accepted
hole r0 any / hole r1 any / exec 'makes'/1 | 3 hole
hole r0 any / hole r1 any / exec 'makes_two'/2 | accepted
hole r0 any / move r1 r0 / exec 'makes_two'/2 | 3 hole
hole r0 any / exec 'makes_two'/2 | 2 call
hole r0 full / exec 'makes'/1 | 2 call
hole r0 full / exec 'makes_full'/1 | accepted
hole r0 nonvar / exec 'makes_full'/1 | accepted
hole r0 nonvar / exec 'makes_direct'/1 | accepted
hole r0 ground / exec 'makes_direct'/1 | 2 call
hole r0 direct / exec 'makes_direct'/1 | accepted
allocate 1 / hole r0 any / call 'makes'/1 / deallocate / return | accepted
allocate 1 / hole r0 any / call 'plain'/0 / deallocate / return | 3 hole
allocate 1 / hole r0 any / move r1 r0 / call 'makes_two'/2 / deallocate / return | 4 hole
allocate 1 / hole r0 any / hole r1 any / call 'makes_two'/2 / deallocate / return | accepted
allocate 1 / hole r0 any / hole r1 any / call 'makes'/1 / deallocate / return | 4 hole
allocate 1 / hole r0 any / fill r0 5 / call 'plain'/0 / deallocate / return | accepted
allocate 1 / hole r0 any / fill r0 5 / call 'makes'/1 / deallocate / return | 4 call
allocate 1 / hole r0 full / move y0 r0 / call 'makes_full'/1 / deref r1 y0 / match r1 5 - / deallocate / return | accepted
allocate 1 / hole r0 full / move y0 r0 / call 'makes_full'/1 / move r1 y0 / match r1 5 - / deallocate / return | 6 tag
allocate 1 / hole r0 any / move y0 r0 / call 'makes'/1 / deref r1 y0 / match r1 5 - / deallocate / return | 6 tag
allocate 1 / hole r0 direct / move y0 r0 / call 'makes_full'/1 / deref r1 y0 / match r1 5 - / deallocate / return | accepted
allocate 1 / hole r0 full / move y0 r0 / call 'makes_full'/1 / label 0 f1 a0:any y0:cell:full / deallocate / return | accepted
allocate 1 / hole r0 full / move y0 r0 / call 'makes_full'/1 / label 0 f1 a0:any y0:ground / deallocate / return | accepted
allocate 1 / hole r0 full / move y0 r0 / call 'makes_full'/1 / label 0 f1 a0:any y0:gdirect / deallocate / return | 5 state
allocate 1 / hole r0 full / move y0 r0 / call 'makes_full'/1 / label 0 f1 a0:any y0:cell:any / deallocate / return | 5 state
allocate 1 / hole r0 any / move y0 r0 / call 'makes_full'/1 / label 0 f1 a0:any y0:cell:full / deallocate / return | 5 state
allocate 1 / hole r0 any / move y0 r0 / call 'makes'/1 / eval r1 y0 / label 0 f1 a0:any y0:ground / deallocate / return | 6 state
allocate 1 / hole r0 any / move y0 r0 / call 'makes'/1 / eval r1 y0 / label 0 f1 a0:any y0:cell:any / deallocate / return | accepted
allocate 1 / hole r0 any / move y0 r0 / call 'makes'/1 / eval r1 y0 / deref r1 y0 / match r1 5 - / deallocate / return | accepted
allocate 1 / hole r0 any / move y0 r0 / call 'makes'/1 / label 0 f1 a0:any y0:any / eval r1 y0 / label 1 f1 a0:any y0:ground / deallocate / return | accepted
allocate 2 / hole r0 any / move y0 r0 / move y1 r0 / call 'makes'/1 / eval r1 y0 / deref r1 y1 / match r1 5 - / deallocate / return | accepted
allocate 1 / hole r0 any / move y0 r0 / deallocate / exec 'makes'/1 | accepted
allocate 1 / hole r0 any / move y0 r0 / fill r0 5 / move r1 y0 / deallocate / return | 5 unset
lst r1 / push r0 / hole r2 any / fill r2 5 / return | accepted
lst r1 / hole r1 any / push r0 / return | 2 open
lst r1 / push r0 / hole r2 any / return | 4 hole
lst r1 / hole r2 any / hole r3 any / fill r2 5 / fill r3 5 / return | accepted
lst r1 / push r0 / hole r2 any / push r0 / return | 4 open
lst r1 / push 1 / hole r2 full / fill r2 5 / load r3 r1 0 / match r3 1 - / return | accepted
lst r1 / push 1 / hole r2 ground / fill r2 5 / load r3 r1 0 / match r3 1 - / return | 6 tag
lst r1 / push 1 / hole r2 full / fill r2 5 / label 0 - a0:any r1:flst / return | accepted
lst r1 / push 1 / hole r2 gdirect / fill r2 5 / label 0 - a0:any r1:flst / return | 5 state
lst r1 / push 1 / hole r2 gdirect / fill r2 5 / label 0 - a0:any r1:glst / return | accepted
lst r1 / push 1 / hole r2 nonvar / fill r2 5 / label 0 - a0:any r1:glst / return | 5 state
lst r1 / push 1 / hole r2 nonvar / fill r2 5 / label 0 - a0:any r1:lst / return | accepted
lst r1 / push 1 / hole r2 full / load r3 r1 0 / fill r2 5 / return | 4 tag
lst r1 / push 1 / hole r2 full / deref r3 r1 / fill r2 5 / return | 4 tag
lst r1 / push 1 / hole r2 full / unify r0 r1 / fill r2 5 / return | 4 tag
lst r1 / push 1 / hole r2 full / move r3 r1 / fill r2 5 / load r4 r3 0 / return | accepted
lst r1 / push 1 / hole r2 full / move r0 r1 / fill r2 5 / exec 'full'/1 | accepted
lst r1 / push 1 / hole r2 full / move r0 r1 / exec 'full'/1 | 5 call
lst r1 / push 1 / hole r2 full / str r3 'f'/1 / push r1 / fill r2 5 / label 0 - a0:any r3:fstr:'f'/1 / return | accepted
lst r1 / push 1 / hole r2 full / str r3 'f'/1 / push r1 / load r4 r3 1 / fill r2 5 / return | 6 tag
lst r1 / push 1 / hole r2 full / hole r3 any / fill r2 5 / load r4 r1 0 / fill r3 5 / return | 6 tag
lst r1 / push 1 / hole r2 full / hole r3 any / fill r3 r1 / fill r2 5 / return | accepted
lst r1 / push 1 / hole r2 any / hole r3 full / fill r3 r1 / fill r2 5 / return | 5 tag
lst r1 / push 1 / hole r2 any / hole r3 direct / fill r3 r1 / fill r2 5 / return | accepted
allocate 1 / lst r1 / push 1 / hole r0 full / move y0 r1 / call 'makes_full'/1 / label 0 f1 a0:any y0:flst / deallocate / return | accepted
allocate 1 / lst r1 / push 1 / hole r0 any / move y0 r1 / call 'makes_full'/1 / label 0 f1 a0:any y0:flst / deallocate / return | 7 state
fail / label 0 - a0:any r1:part:flst / load r2 r1 0 / return | 3 tag
fail / label 0 - a0:any r1:part:flst / move r2 r1 / hole r3 any / fill r3 5 / load r4 r2 0 / return | accepted
fail / label 0 - a0:any r1:cell:flst / load r2 r1 0 / return | 3 tag
fail / label 0 - a0:any r1:cell:flst / deref r2 r1 / load r3 r2 0 / return | accepted
fail / label 0 - a0:any r1:cell:flst=a0 / label 1 - a0:ground / return | accepted";

/// Each instruction while a hole that was made is unfilled.
const BESIDE: &str = "\
hole r9 any / move r1 r0 / fill r9 5 / return | accepted
hole r9 any / str r1 'f'/1 / push r0 / fill r9 5 / return | accepted
hole r9 any / lst r1 / push r0 / push_new r2 / fill r9 5 / return | accepted
hole r9 any / fresh r1 / fill r9 r1 / return | accepted
hole r9 any / hole r1 any / fill r1 5 / fill r9 5 / return | accepted
allocate 1 / hole r9 any / deallocate / fill r9 5 / return | accepted
hole r9 any / allocate 1 / deallocate / fill r9 5 / return | 2 hole
hole r9 any / deref r1 r0 / fill r9 5 / return | 2 hole
move r1 #1 / hole r9 any / load r2 r1 0 / fill r9 5 / return | 3 hole
fresh r1 / hole r9 any / bind r1 5 / fill r9 5 / return | 3 hole
hole r9 any / unify r0 5 / fill r9 5 / return | 2 hole
hole r9 any / jump 0 / label 0 - a0:any / return | 2 hole
move r1 5 / hole r9 any / switch r1 var=- atm=- int=- lst=- str=- | 3 hole
move r1 5 / hole r9 any / match r1 5 - / fill r9 5 / return | 3 hole
move r1 5 / hole r9 any / functor r1 'f'/1 - / fill r9 5 / return | 3 hole
hole r9 any / fail | 2 hole
hole r9 any / return | 2 hole
hole r9 any / try 1 0 / fill r9 5 / return / alt 0 - a0:any / trust / return | 2 hole
hole r9 any / try 1 - / fill r9 5 / return | 2 choice
hole r9 any / mark r1 / fill r9 5 / return | 2 hole
mark r1 / hole r9 any / cut r1 / fill r9 5 / return | 3 hole
hole r9 any / arith add r1 1 2 / fill r9 r1 / return | 2 hole
hole r9 any / less lt 1 2 / fill r9 5 / return | 2 hole
hole r9 any / eval r1 5 / fill r9 5 / return | 2 hole
hole r9 any / same eq r0 5 / fill r9 5 / return | 2 hole
hole r9 any / builtin 'nl'/0 / fill r9 5 / return | 2 hole
hole r9 any / raise 5 | 2 hole
hole r9 any / label 0 - a0:any / return | 2 hole
hole r9 any / label 0 - a0:any r9:any / return | 2 hole
hole r9 any / label 0 - a0:ground / return | 2 hole
hole r9 any / label 0 f1 a0:any / deallocate / return | 2 hole";

/// A procedure of two results.
const TWO_RESULTS: &str = "\
fill r0 5 / fill r1 'a' / return | accepted
fill r0 5 / return | 2 hole
exec 'makes_two'/2 | accepted
exec 'makes'/1 | 1 hole
fill r1 5 / exec 'makes'/1 | accepted
move r1 r0 / exec 'makes_two'/2 | 2 hole
fill r1 5 / move r1 r0 / exec 'makes_two'/2 | 3 hole
fill r1 5 / hole r1 any / exec 'makes_two'/2 | accepted
move r5 r0 / move r0 r1 / move r1 r5 / exec 'makes_two'/2 | accepted
fill r1 r0 / return | 1 tag
allocate 1 / move y0 r1 / call 'makes'/1 / move r0 y0 / deallocate / exec 'makes'/1 | accepted
allocate 1 / move y0 r1 / call 'makes'/1 / move r0 y0 / call 'makes'/1 / deallocate / return | accepted
allocate 1 / move y0 r0 / call 'makes'/1 / move r0 y0 / call 'makes'/1 / deallocate / return | 5 call
allocate 1 / move y0 r0 / fill r1 5 / call 'makes'/1 / deref r1 y0 / deallocate / return | accepted
label 0 - r0:hole:any=a0 / return | 1 hole
label 0 - r0:hole:any=a0 r1:hole:any=a1 / fill r0 5 / fill r1 5 / return | accepted
label 0 - r0:hole:any=a1 r1:hole:any=a0 / fill r0 5 / fill r1 5 / return | 1 state
fill r0 5 / label 0 - r1:hole:any=a1 / fill r1 5 / return | accepted
fill r0 5 / label 0 - r0:hole:any=a0 r1:hole:any=a1 / fill r1 5 / return | 2 state";

#[test]
fn holes_of_results(rt: HostRuntime) -> Result<(), Fail> {
    answers(&rt, rt.alloc(), "1", "'p'/2 any out -> any full", OWN)?;
    answers(
        &rt,
        rt.alloc(),
        "1",
        "'p'/2 out out -> any any",
        TWO_RESULTS,
    )
}

#[test]
fn holes_that_lines_make(rt: HostRuntime) -> Result<(), Fail> {
    answers(&rt, rt.alloc(), "1", "'p'/1 any -> any", MADE)
}

#[test]
fn instructions_beside_holes(rt: HostRuntime) -> Result<(), Fail> {
    answers(&rt, rt.alloc(), "1", "'p'/1 any -> any", BESIDE)
}
