//! Calls, their arguments and their results.

use crate::harness::{answers, whole_answers};
use std::test::Fail;

/// A procedure of one argument of any kind.
const CALLS: &str = "\
allocate 1 / call 'plain'/0 / deallocate / return | accepted
call 'plain'/0 / return | 1 frame
allocate 1 / call 'nobody'/0 / deallocate / return | 2 call
allocate 1 / call 'plain'/1 / deallocate / return | 2 call
allocate 1 / call 'plain'/0#1/0 / deallocate / return | 2 call
allocate 1 / call 'any'/1 / deallocate / return | accepted
allocate 1 / mark r0 / call 'any'/1 / deallocate / return | 3 call
allocate 1 / call 'direct'/1 / deallocate / return | 2 call
allocate 1 / deref r0 r0 / call 'direct'/1 / deallocate / return | 3 call
allocate 1 / move r0 5 / call 'direct'/1 / deallocate / return | accepted
allocate 1 / eval r1 r0 / call 'full'/1 / deallocate / return | 3 call
allocate 1 / move r0 #0 / call 'full'/1 / deallocate / return | accepted
allocate 1 / call 'cuts'/1 / deallocate / return | 2 call
allocate 1 / mark r0 / call 'cuts'/1 / deallocate / return | accepted
allocate 1 / call 'makes'/1 / deallocate / return | 2 call
allocate 1 / hole r0 any / call 'makes'/1 / deallocate / return | accepted
allocate 1 / call 'takes'/2 / deallocate / return | 2 call
allocate 1 / move r1 r0 / call 'takes'/2 / deallocate / return | 3 call
allocate 1 / hole r1 any / call 'takes'/2 / deallocate / return | accepted
allocate 1 / call 'any'/1 / move r1 r0 / deallocate / return | 3 unset
allocate 1 / call 'any'/1 / call 'any'/1 / deallocate / return | 3 call
allocate 1 / move y0 r0 / call 'any'/1 / move r0 y0 / call 'any'/1 / deallocate / return | accepted
allocate 1 / move y0 r0 / call 'learns'/1 / deref r1 y0 / match r1 5 - / deallocate / return | accepted
allocate 1 / move y0 r0 / call 'any'/1 / deref r1 y0 / match r1 5 - / deallocate / return | 5 tag
allocate 1 / move y0 r0 / call 'tests'/1 / deref r1 y0 / match r1 5 - / deallocate / return | accepted
allocate 1 / move y0 r0 / call 'tests'/1 / label 0 f1 a0:nonvar y0:nonvar=a0 / deallocate / return | accepted
allocate 1 / move y0 r0 / call 'tests'/1 / label 0 f1 a0:ground y0:nonvar=a0 / deallocate / return | 4 state
allocate 1 / call 'learns'/1 / label 0 f1 a0:ground / deallocate / return | accepted
allocate 1 / move r0 5 / call 'learns'/1 / label 0 f1 a0:ground / deallocate / return | 4 state
allocate 1 / deref r1 r0 / move y0 r1 / call 'plain'/0 / move r1 y0 / switch r1 var=- atm=- int=- lst=- str=- | 6 tag
allocate 1 / fresh r1 / move y0 r1 / call 'plain'/0 / move r1 y0 / bind r1 5 / deallocate / return | 6 tag
allocate 1 / fresh r1 / move y0 r1 / move r1 y0 / bind r1 5 / deallocate / return | accepted
allocate 1 / deref r1 r0 / move y0 r1 / call 'learns'/1 / match y0 5 - / return | line 21
allocate 1 / deref r1 r0 / move y0 r1 / call 'learns'/1 / move r1 y0 / match r1 5 - / deallocate / return | 6 tag
exec 'plain'/0 | accepted
allocate 1 / exec 'plain'/0 | 2 frame
exec 'nobody'/0 | 1 call
exec 'any'/1 | accepted
exec 'direct'/1 | 1 call
exec 'makes'/1 | 1 call
hole r0 any / exec 'makes'/1 | accepted
mark r0 / exec 'any'/1 | 2 call
mark r0 / exec 'cuts'/1 | accepted
exec 'cuts'/1 | 1 call";

/// A procedure that says at its return that its first argument is ground, and its second no variable.
const RESULTS: &str = "\
return | 1 result
eval r2 r0 / return | 2 result
builtin '=..'/2 / return | 2 result
eval r2 r0 / builtin '=..'/2 / return | accepted
eval r2 r0 / unify r1 5 / return | accepted
eval r2 r0 / same eq r1 5 / return | 3 result
exec 'plain'/0 | 1 result
exec 'learns'/1 | 1 result
builtin '=..'/2 / exec 'learns'/1 | accepted
builtin '=..'/2 / exec 'tests'/1 | 2 result
eval r2 r0 / move r0 r1 / exec 'tests'/1 | accepted
eval r2 r0 / move r0 r1 / exec 'learns'/1 | accepted
eval r2 r0 / move r0 r1 / exec 'any'/1 | 3 result
eval r2 r0 / move r0 5 / exec 'tests'/1 | 3 result
move r2 r0 / unify r2 5 / builtin '=..'/2 / return | accepted
fail | accepted
raise 5 | accepted
jump - | accepted";

/// A procedure that takes a number of choices.
const BARRIERS: &str = "\
cut r0 / return | accepted
exec 'cuts'/1 | accepted
return | accepted
exec 'any'/1 | 1 call
unify r0 5 / return | 1 tag
label 0 - r0:bar / cut r0 / return | accepted
label 0 - r0:any / return | 1 state
try 1 0 / return / alt 0 - r0:bar / trust / cut r0 / return | accepted
try 0 0 / return / alt 0 - r0:bar / trust / cut r0 / return | 1 choice";

/// Whole texts with entries and more procedures.
const WHOLE: &str = "\
bam 1 | accepted
bam 1 / entry 'p'/0 | proc 0 line 1: entry
bam 1 / entry 'p'/0 / import 'p'/0 -> | proc 0 line 1: entry
bam 1 / entry 'p'/0 / proc 'p'/0 -> / return / end | accepted
bam 1 / entry 'p'/0 / entry 'q'/0 / proc 'p'/0 -> / return / end | proc 0 line 2: entry
bam 1 / entry 'q'/0 / proc 'p'/0 -> / move r0 r1 / return / end | proc 0 line 1: entry
bam 1 / proc 'p'/0 -> / return / end / proc 'q'/0 -> / move r0 r1 / return / end | proc 2 line 1: unset
bam 1 / proc 'p'/0 -> / exec 'q'/0 / end / proc 'q'/0 -> / exec 'p'/0 / end | accepted
bam 1 / proc 'p'/0 -> / exec 'q'/0 / end / proc 'q'/0#1/0 -> / exec 'p'/0 / end | 1 call
bam 1 / proc 'p'/0#2/1 any -> any / exec 'p'/0#2/1 / end | accepted
bam 1 / proc 'p'/0#2/1 any -> any / exec 'p'/0#1/1 / end | 1 call
bam 1 / proc 'p'/0#2/1 any -> any / exec 'p'/0#2/2 / end | 1 call
bam 1 / proc 'p'/1 any -> any / label 0 - a0:any / return / end / proc 'q'/1 any -> any / jump 0 / label 0 - a0:any / return / end | accepted
bam 1 / proc 'p'/1 any -> any / label 0 - a0:any / return / end / proc 'q'/1 any -> any / jump 0 / end | proc 2 line 1: flow
bam 1 / entry 'p'/1 ground / proc 'p'/1 full -> ground / return / end | accepted
bam 1 / entry 'p'/1 ground / proc 'p'/1 gdirect -> ground / return / end | accepted
bam 1 / entry 'p'/1 ground / proc 'p'/1 ground -> ground / return / end | accepted
bam 1 / entry 'p'/1 ground / proc 'p'/1 direct -> nonvar / return / end | accepted
bam 1 / entry 'p'/1 ground / proc 'p'/1 nonvar -> nonvar / return / end | accepted
bam 1 / entry 'p'/1 ground / proc 'p'/1 any -> any / return / end | accepted
bam 1 / entry 'p'/1 ground / proc 'p'/1 out -> any / fill r0 5 / return / end | proc 0 line 1: entry
bam 1 / entry 'p'/1 ground / proc 'p'/1 bar -> bar / return / end | proc 0 line 1: entry
bam 1 / entry 'p'/1 nonvar / proc 'p'/1 full -> ground / return / end | proc 0 line 1: entry
bam 1 / entry 'p'/1 nonvar / proc 'p'/1 gdirect -> ground / return / end | proc 0 line 1: entry
bam 1 / entry 'p'/1 nonvar / proc 'p'/1 ground -> ground / return / end | proc 0 line 1: entry
bam 1 / entry 'p'/1 nonvar / proc 'p'/1 direct -> nonvar / return / end | accepted
bam 1 / entry 'p'/1 nonvar / proc 'p'/1 nonvar -> nonvar / return / end | accepted
bam 1 / entry 'p'/1 nonvar / proc 'p'/1 any -> any / return / end | accepted
bam 1 / entry 'p'/1 nonvar / proc 'p'/1 out -> any / fill r0 5 / return / end | proc 0 line 1: entry
bam 1 / entry 'p'/1 out / proc 'p'/1 out -> any / fill r0 5 / return / end | accepted
bam 1 / entry 'p'/1 out / proc 'p'/1 any -> any / return / end | accepted
bam 1 / entry 'p'/1 out / proc 'p'/1 nonvar -> any / return / end | proc 0 line 1: entry
bam 1 / entry 'p'/1 out / proc 'p'/1 full -> any / return / end | proc 0 line 1: entry
bam 1 / entry 'p'/1 out / proc 'p'/1 bar -> bar / return / end | proc 0 line 1: entry
bam 1 / entry 'p'/1 any / proc 'p'/1 any -> any / return / end | accepted
bam 1 / entry 'p'/1 any / proc 'p'/1 nonvar -> any / return / end | proc 0 line 1: entry
bam 1 / entry 'p'/1 any / proc 'p'/1 out -> any / fill r0 5 / return / end | proc 0 line 1: entry
bam 1 / entry 'p'/1 any / proc 'p'/1 bar -> bar / return / end | proc 0 line 1: entry
bam 1 / entry 'p'/2 ground out / proc 'p'/2 full out -> ground full / fill r1 r0 / return / end | accepted
bam 1 / entry 'p'/2 ground any / proc 'p'/2 full out -> ground full / fill r1 r0 / return / end | proc 0 line 1: entry
bam 1 / proc 'p'/1 full -> ground / match r0 5 - / return / end | accepted
bam 1 / proc 'p'/1 gdirect -> ground / match r0 5 - / return / end | accepted
bam 1 / proc 'p'/1 ground -> ground / match r0 5 - / return / end | 1 tag
bam 1 / proc 'p'/1 direct -> nonvar / match r0 5 - / return / end | accepted
bam 1 / proc 'p'/1 direct -> ground / return / end | 1 result
bam 1 / proc 'p'/1 direct -> ground / match r0 5 - / return / end | accepted
bam 1 / proc 'p'/1 nonvar -> nonvar / match r0 5 - / return / end | 1 tag
bam 1 / proc 'p'/1 nonvar -> ground / return / end | 1 result
bam 1 / proc 'p'/1 any -> nonvar / return / end | 1 result";

#[test]
fn calls_and_last_calls(rt: HostRuntime) -> Result<(), Fail> {
    answers(&rt, rt.alloc(), "1", "'p'/1 any -> any", CALLS)
}

#[test]
fn results_of_procedures(rt: HostRuntime) -> Result<(), Fail> {
    answers(
        &rt,
        rt.alloc(),
        "1",
        "'p'/2 any any -> ground nonvar",
        RESULTS,
    )
}

#[test]
fn numbers_of_choices(rt: HostRuntime) -> Result<(), Fail> {
    answers(&rt, rt.alloc(), "1", "'p'/1 bar -> bar", BARRIERS)
}

#[test]
fn entries_and_procedures(rt: HostRuntime) -> Result<(), Fail> {
    whole_answers(&rt, rt.alloc(), WHOLE)
}
