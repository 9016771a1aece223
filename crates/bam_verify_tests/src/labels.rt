//! Labels, alternatives, and the choices that name them.

use crate::harness::answers;
use std::test::Fail;

/// A procedure of two arguments of which nothing is known.
const LABELS: &str = "\
label 0 - a0:any a1:any / return | accepted
label 0 - a0:any a1:any r0:any=a0 r1:any=a1 / return | accepted
label 0 - a0:any a1:any r0:any=a1 / return | 1 state
label 0 - a0:any a1:any r0:any / return | accepted
label 0 - a0:nonvar a1:any / return | 1 state
label 0 - a0:any a1:ground / return | 1 state
label 0 - a0:any a1:any r2:any / return | 1 state
label 0 - a0:any a1:any r0:nonvar / return | 1 state
label 0 f1 a0:any a1:any / deallocate / return | 1 state
label 0 - a0:any a1:any y0:any / return | 1 state
allocate 1 / label 0 f1 a0:any a1:any / deallocate / return | accepted
allocate 1 / label 0 f2 a0:any a1:any / deallocate / return | 2 state
allocate 1 / label 0 - a0:any a1:any / return | 2 state
allocate 1 / move y0 r0 / label 0 f1 a0:any a1:any y0:any=a0 / deallocate / return | accepted
allocate 1 / move y0 r0 / label 0 f1 a0:any a1:any y0:any / deallocate / return | accepted
allocate 1 / move y0 r0 / label 0 f1 a0:any a1:any y0:any=a1 / deallocate / return | 3 state
allocate 1 / move y0 r0 / label 0 f1 a0:any a1:any / deallocate / return | 3 state
allocate 1 / label 0 f1 a0:any a1:any y0:any / deallocate / return | 2 state
allocate 2 / move y1 r0 / label 0 f2 a0:any a1:any y0:any / deallocate / return | 3 state
allocate 2 / move y0 r0 / move y1 r1 / label 0 f2 a0:any a1:any y0:any / deallocate / return | 4 state
allocate 2 / move y0 r0 / move y1 r1 / label 0 f2 a0:any a1:any y0:any y1:any=a1 / deallocate / return | accepted
allocate 1 / move y0 #0 / label 0 f1 a0:any a1:any y0:ground / deallocate / return | accepted
allocate 1 / move y0 r0 / label 0 f1 a0:any a1:any y0:ground / deallocate / return | 3 state
allocate 1 / move y0 r0 / jump 0 / label 0 f1 a0:any a1:any / deallocate / return | 3 state
allocate 1 / move y0 r0 / jump 0 / label 0 f1 a0:any a1:any y0:any / move y0 r0 / return | 5 unset
allocate 1 / move y0 r0 / jump 0 / label 0 f1 a0:any a1:any r0:any y0:any / move y0 r0 / return | 5 slot
label 0 - a0:any a1:any / move r2 r0 / return | 2 unset
label 0 - a0:any a1:any r1:any / move r2 r1 / return | accepted
fail / label 0 - a0:any a1:any r7:str:'f'/3 / load r8 r7 3 / return | accepted
fail / label 0 - a0:any a1:any r7:str:'f'/3 / load r8 r7 4 / return | 3 index
fail / label 0 f4 a0:any a1:any y3:any / move r0 y3 / deallocate / return | accepted
fail / label 0 f4 a0:any a1:any y3:any / move r0 y4 / deallocate / return | 3 unset
fail / label 0 f4 a0:any a1:any y3:any / move y4 y3 / deallocate / return | 3 index
fail / label 0 f4 a0:any a1:any y3:any / move y3 y3 / deallocate / return | 3 slot
fail / label 0 - a0:any a1:any y3:any / move r0 y3 / return | 3 frame
fail / label 0 - a0:ground a1:any r5:any=a0 / deref r5 r5 / match r5 1 - / return | accepted
fail / label 0 - a0:any a1:any r5:atm=a0 r6:any=a0 / deref r6 r6 / match r6 1 - / return | accepted
fail / label 0 - a0:any a1:any r5:any=a0 r6:any=a0 / unify r5 1 / deref r6 r6 / match r6 1 - / return | accepted
fail / label 0 - a0:any a1:any r5:any=a0 r6:any / unify r5 1 / deref r6 r6 / match r6 1 - / return | 5 tag
fail / label 0 - a0:any a1:any r5:any r6:any / unify r5 1 / deref r6 r6 / match r6 1 - / return | 5 tag
fail / label 0 - a0:any a1:any r5:any=a0 r6:any=a1 / unify r5 1 / deref r6 r6 / match r6 1 - / return | 5 tag
fail / label 0 - a0:any a1:any r0:any=a0 / unify r0 1 / label 1 - a0:ground a1:any / return | accepted
fail / label 0 - a0:any a1:any r0:any / unify r0 1 / label 1 - a0:ground a1:any / return | 4 state
fail / label 0 - a0:nonvar a1:any r0:var=a0 / bind r0 5 / return | 3 tag
fail / label 0 - a0:any a1:any r0:var=a0 / bind r0 5 / return | accepted
fail / label 0 - a0:nonvar a1:any r0:head=a0 / match r0 5 - / return | accepted
fail / label 0 - a0:any a1:any r0:nonvar=a0 / label 1 - a0:nonvar a1:any / return | accepted
fail / label 0 - a0:any a1:any r0:nonvar / label 1 - a0:nonvar a1:any / return | 3 state
move r5 r0 / unify r5 1 / label 0 - a0:ground a1:any r0:ground=a0 r5:ground=a0 / return | accepted
move r5 r0 / move r0 5 / label 0 - a0:any a1:any r5:any=a0 / return | accepted
move r5 r0 / move r0 5 / label 0 - a0:any a1:any r0:any=a0 / return | 3 state
move r5 r0 / move r0 5 / label 0 - a0:any a1:any r0:int / return | accepted
jump 1 / label 0 - a0:any a1:any / return / label 1 - a0:any a1:any / return | accepted
jump 1 / label 0 - a0:any a1:any / return / label 1 - a0:any a1:nonvar / return | 1 state
label 0 - a0:any a1:any / label 1 - a0:any a1:any / return | accepted
label 0 - a0:any a1:any / label 1 - a0:any a1:any r0:any / return | 2 state
label 0 - a0:any a1:any r0:any / label 1 - a0:any a1:any r0:any / return | accepted
fail / alt 0 f3 a0:any a1:any y0:any / deallocate / return | accepted
fail / alt 0 - a0:any a1:any r0:any=a0 / unify r0 1 / label 0 - a0:any a1:any / return | line 20
label 1 - a0:any a1:any / return | line 17";

const CHOICES: &str = "\
try 2 0 / return / alt 0 - a0:any a1:any r0:any=a0 r1:any=a1 / trust / return | accepted
try 0 0 / return / alt 0 - a0:any a1:any / trust / return | accepted
try 1024 0 / return / alt 0 - a0:any a1:any / trust / return | accepted
try 1 0 / return / alt 0 - a0:any a1:any r0:any=a0 r1:any=a1 / trust / return | 1 choice
try 2 - / return | 1 choice
try 2 0 / return / label 0 - a0:any a1:any / return | 1 choice
try 2 0 / return / alt 0 f1 a0:any a1:any / trust / deallocate / return | 1 choice
try 2 0 / return / alt 0 - a0:any a1:any y0:any / trust / return | 1 choice
try 2 0 / return / alt 0 - a0:ground a1:any / trust / return | 1 choice
try 2 0 / return / alt 0 - a0:any a1:any r0:any=a1 / trust / return | 1 choice
try 2 0 / return / alt 0 - a0:any a1:any r0:nonvar=a0 / trust / return | 1 choice
try 3 0 / return / alt 0 - a0:any a1:any r2:any / trust / return | 1 choice
try 2 1 / return / alt 0 - a0:any a1:any / trust / return | 1 flow
allocate 1 / try 2 0 / deallocate / return / alt 0 - a0:any a1:any / trust / return | 2 frame
fail / alt 0 - a0:any a1:any / try 2 0 / return | 3 flow
unify r0 1 / try 2 0 / return / alt 0 - a0:ground a1:any r0:ground=a0 / trust / return | accepted
try 2 0 / unify r0 1 / return / alt 0 - a0:ground a1:any / trust / return | 1 choice
try 2 0 / return / alt 0 - a0:any a1:any r0:any=a0 / retry 1 / return / alt 1 - a0:any a1:any r0:any=a0 / trust / return | accepted
try 2 0 / return / alt 0 - a0:any a1:any r0:any=a0 / retry - / return | 4 choice
try 2 0 / return / alt 0 - a0:any a1:any r0:any=a0 / retry 1 / return / label 1 - a0:any a1:any r0:any=a0 / return | 4 choice
try 2 0 / return / alt 0 - a0:any a1:any r0:any=a0 / retry 1 / return / alt 1 f1 a0:any a1:any / trust / return | 4 choice
try 2 0 / return / alt 0 - a0:any a1:any r0:any=a0 / retry 1 / return / alt 1 - a0:any a1:any y0:any / trust / return | 4 choice
try 2 0 / return / alt 0 - a0:any a1:any r0:any=a0 / retry 1 / return / alt 1 - a0:any a1:any r1:any=a1 / trust / return | 4 choice
try 2 0 / return / alt 0 - a0:any a1:any r0:any=a0 / retry 1 / return / alt 1 - a0:ground a1:any / trust / return | 4 choice
try 2 0 / return / alt 0 - a0:any a1:any r0:any=a0 / retry 1 / return / alt 1 - a0:any a1:any r0:any=a1 / trust / return | 4 choice
try 2 0 / return / alt 0 - a0:any a1:any / retry 2 / return / alt 1 - a0:any a1:any / trust / return | 4 flow
try 2 0 / return / alt 0 - a0:any a1:any / retry 0 / return | 4 flow
try 2 0 / return / alt 0 - a0:any a1:any / trust / return / alt 1 - a0:any a1:any / return | accepted
try 2 0 / return / alt 0 - a0:any a1:any / return | accepted
try 2 0 / alt 0 - a0:any a1:any / trust / return | 2 flow
try 1 0 / try 1 1 / return / alt 0 - a0:any a1:any r0:any=a0 / trust / return / alt 1 - a0:any a1:any / trust / return | accepted
try 2 0 / match r0 5 - / return / alt 0 - a0:any a1:any / trust / return | 2 tag
try 2 0 / return / alt 0 - a0:any a1:any r0:any / trust / mark r1 / cut r1 / return | accepted";

/// Each instruction while a push is due.
const OPEN: &str = "\
lst r5 / move r6 r0 / return | 2 open
lst r5 / deref r6 r0 / return | 2 open
move r1 #1 / lst r5 / load r6 r1 0 / return | 3 open
lst r5 / str r6 'f'/1 / return | 2 open
lst r5 / lst r6 / return | 2 open
lst r5 / fresh r6 / return | 2 open
fresh r1 / lst r5 / bind r1 5 / return | 3 open
lst r5 / unify r0 5 / return | 2 open
lst r5 / jump - | 2 open
lst r5 / jump 0 / label 0 - a0:any / return | 2 open
move r1 5 / lst r5 / switch r1 var=- atm=- int=- lst=- str=- | 3 open
move r1 5 / lst r5 / match r1 5 - / return | 3 open
move r1 5 / lst r5 / functor r1 'f'/1 - / return | 3 open
lst r5 / fail | 2 open
allocate 1 / lst r5 / call 'plain'/0 / deallocate / return | 3 open
lst r5 / exec 'plain'/0 | 2 open
lst r5 / return | 2 open
lst r5 / allocate 1 / deallocate / return | 2 open
allocate 1 / lst r5 / deallocate / return | 3 open
lst r5 / try 1 0 / return / alt 0 - a0:any / trust / return | 2 open
lst r5 / mark r6 / return | 2 open
mark r6 / lst r5 / cut r6 / return | 3 open
lst r5 / arith add r6 1 2 / return | 2 open
lst r5 / less lt 1 2 / return | 2 open
lst r5 / eval r6 5 / return | 2 open
lst r5 / same eq r0 5 / return | 2 open
lst r5 / builtin 'nl'/0 / return | 2 open
lst r5 / raise 5 | 2 open
lst r5 / label 0 - a0:any / return | 2 open
lst r5 / push 1 / push 2 / label 0 - a0:any r5:flst / return | accepted
lst r5 / push 1 / label 0 - a0:any / return | 3 open
lst r5 / hole r5 any / return | 2 open
lst r5 / call 'plain'/0 / return | 2 frame
lst r5 / call 'nobody'/0 / return | 2 frame
lst r5 / exec 'nobody'/0 | 2 open
lst r5 / try 1 - / return | 2 open
lst r5 / match r0 5 - / return | 2 tag";

#[test]
fn states_at_labels(rt: HostRuntime) -> Result<(), Fail> {
    answers(&rt, rt.alloc(), "1", "'p'/2 any any -> any any", LABELS)
}

#[test]
fn alternatives(rt: HostRuntime) -> Result<(), Fail> {
    answers(&rt, rt.alloc(), "1", "'p'/2 any any -> any any", CHOICES)
}

#[test]
fn pushes_due(rt: HostRuntime) -> Result<(), Fail> {
    answers(&rt, rt.alloc(), "1", "'p'/1 any -> any", OPEN)
}
