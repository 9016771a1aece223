//! Catchers and the labels of balls.

use crate::harness::answers;
use std::test::Fail;

/// A procedure of an argument of any kind.
const CATCHERS: &str = "\
catch 1 0 / uncatch / return / ball 0 - a0:any / return | accepted
catch 0 0 / uncatch / return / ball 0 - a0:any / unify r0 5 / return | accepted
catch 0 0 / uncatch / return / ball 0 - a0:any / unify r1 5 / return | 5 unset
catch 1 0 / uncatch / return / ball 0 - a0:any r0:any=a0 / unify r0 r1 / return | accepted
catch 0 0 / uncatch / return / ball 0 - a0:any r0:any=a0 / return | 1 catch
catch 1023 0 / uncatch / return / ball 0 - a0:any r0:any=a0 / unify r0 r1023 / return | accepted
catch 1 0 / uncatch / return / ball 0 f1 a0:any / deallocate / return | 1 catch
catch 1 0 / uncatch / return / ball 0 - a0:any y0:any / return | 1 catch
catch 1 0 / uncatch / return / ball 0 - a0:ground / return | 1 catch
catch 1 0 / uncatch / return / ball 0 - a0:any r0:nonvar=a0 / return | 1 catch
catch 2 0 / uncatch / return / ball 0 - a0:any r1:any / return | 1 catch
catch 1 - / uncatch / return / ball 0 - a0:any / return | 1 catch
catch 1 0 / uncatch / return / label 0 - a0:any / return | 1 catch
catch 1 0 / uncatch / return / alt 0 - a0:any / return | 1 catch
catch 1 1 / uncatch / return / ball 0 - a0:any / return | 1 flow
fail / ball 0 - a0:any / catch 1 0 / uncatch / return | 3 flow
allocate 1 / catch 1 0 / uncatch / deallocate / return / ball 0 - a0:any / return | 2 frame
catch 1 0 / catch 1 0 / uncatch / return / ball 0 - a0:any / return | 2 catch
catch 1 0 / uncatch / catch 1 0 / uncatch / return / ball 0 - a0:any / return | accepted
catch 1 0 / uncatch / catch 0 0 / uncatch / return / ball 0 - a0:any / return | 3 catch
catch 1 0 / uncatch / catch 0 1 / uncatch / return / ball 0 - a0:any / return / ball 1 - a0:any / return | accepted
catch 0 0 / uncatch / catch 1 1 / uncatch / return / ball 0 - a0:any / unify r0 5 / return / ball 1 - a0:any / unify r0 5 / return | 10 unset
uncatch / return / ball 0 - a0:any / return | 1 catch
catch 1 0 / uncatch / uncatch / return / ball 0 - a0:any / return | 3 catch
catch 1 0 / return / ball 0 - a0:any / return | 2 catch
return / ball 0 - a0:any / return | accepted
return / ball 0 - a0:any r0:any=a0 / return | accepted
return / ball 0 - a0:any r1:any / unify r0 5 / return | 3 unset
return / ball 0 f2 a0:any y1:any / deallocate / return | accepted
ball 0 - a0:any / return | 1 flow
move r1 5 / ball 0 - a0:any / return | 2 flow
catch 1 0 / uncatch / ball 0 - a0:any / return | 3 flow
return / ball 0 - a0:any | 2 flow
return / ball 0 - a0:any / trust / return | 3 flow
return / ball 0 - a0:any / retry - / return | 3 flow
jump 0 / ball 0 - a0:any / return | 1 flow
move r1 5 / match r1 5 0 / return / ball 0 - a0:any / return | 2 flow
move r1 5 / functor r1 'f'/1 0 / return / ball 0 - a0:any / return | 2 flow
deref r1 r0 / switch r1 var=0 atm=- int=- lst=- str=- / ball 0 - a0:any / return | 2 flow
try 1 0 / return / ball 0 - a0:any / return | 1 choice
try 1 0 / return / alt 0 - a0:any / retry 1 / return / ball 1 - a0:any / return | 4 choice
hole r1 any / catch 1 0 / uncatch / fill r1 5 / return / ball 0 - a0:any / return | 2 hole
lst r1 / catch 1 0 / uncatch / return / ball 0 - a0:any / return | 2 open
lst r1 / uncatch / return / ball 0 - a0:any / return | 2 open
hole r1 any / uncatch / return / ball 0 - a0:any / return | 2 hole
unify r0 5 / catch 1 0 / uncatch / return / ball 0 - a0:ground / return | accepted
allocate 1 / move y0 r0 / deallocate / catch 1 0 / uncatch / return / ball 0 - a0:any / return | accepted";

/// Each instruction while a catcher is in force.
const BESIDE: &str = "\
catch 1 0 / move r1 r0 / uncatch / return / ball 0 - a0:any / return | accepted
catch 1 0 / allocate 1 / uncatch / deallocate / return / ball 0 - a0:any / return | accepted
catch 1 0 / allocate 1 / call 'any'/1 / uncatch / deallocate / return / ball 0 - a0:any / return | accepted
catch 1 0 / allocate 1 / call 'any'/1 / deallocate / uncatch / return / ball 0 - a0:any / return | 4 catch
mark r0 / catch 1 0 / allocate 1 / call 'cuts'/1 / uncatch / deallocate / return / ball 0 - a0:any / return | 4 catch
mark r0 / allocate 1 / call 'cuts'/1 / deallocate / catch 1 0 / uncatch / return / ball 0 - a0:any / return | accepted
catch 1 0 / allocate 1 / call 'nobody'/0 / uncatch / deallocate / return / ball 0 - a0:any / return | 3 call
catch 1 0 / deref r1 r0 / uncatch / return / ball 0 - a0:any / return | 2 catch
move r1 #1 / catch 1 0 / load r2 r1 0 / uncatch / return / ball 0 - a0:any / return | 3 catch
catch 1 0 / str r1 'f'/1 / push r0 / uncatch / return / ball 0 - a0:any / return | 2 catch
catch 1 0 / lst r1 / push r0 / push r0 / uncatch / return / ball 0 - a0:any / return | 2 catch
catch 1 0 / push r0 / uncatch / return / ball 0 - a0:any / return | 2 open
catch 1 0 / push_new r1 / uncatch / return / ball 0 - a0:any / return | 2 open
catch 1 0 / fresh r1 / uncatch / return / ball 0 - a0:any / return | 2 catch
fresh r1 / catch 1 0 / bind r1 5 / uncatch / return / ball 0 - a0:any / return | 3 catch
catch 1 0 / unify r0 5 / uncatch / return / ball 0 - a0:any / return | 2 catch
catch 1 0 / jump - / ball 0 - a0:any / return | 2 catch
catch 1 0 / jump 1 / ball 0 - a0:any / return / label 1 - a0:any / return | 2 catch
catch 1 0 / jump 1 / ball 0 - a0:any / return / label 1 - a0:ground / return | 2 state
move r1 5 / catch 1 0 / switch r1 var=- atm=- int=- lst=- str=- / ball 0 - a0:any / return | 3 catch
move r1 5 / catch 1 0 / match r1 5 - / uncatch / return / ball 0 - a0:any / return | 3 catch
move r1 5 / catch 1 0 / functor r1 'f'/1 - / uncatch / return / ball 0 - a0:any / return | 3 catch
catch 1 0 / fail / ball 0 - a0:any / return | 2 catch
catch 1 0 / exec 'plain'/0 / ball 0 - a0:any / return | 2 catch
catch 1 0 / return / ball 0 - a0:any / return | 2 catch
catch 1 0 / try 1 1 / uncatch / return / ball 0 - a0:any / return / alt 1 - a0:any / trust / return | 2 catch
catch 1 0 / try 1 - / uncatch / return / ball 0 - a0:any / return | 2 choice
catch 1 0 / mark r1 / uncatch / return / ball 0 - a0:any / return | 2 catch
mark r1 / catch 1 0 / cut r1 / uncatch / return / ball 0 - a0:any / return | 3 catch
catch 1 0 / arith add r1 1 2 / uncatch / return / ball 0 - a0:any / return | 2 catch
catch 1 0 / less lt 1 2 / uncatch / return / ball 0 - a0:any / return | 2 catch
catch 1 0 / eval r1 5 / uncatch / return / ball 0 - a0:any / return | 2 catch
catch 1 0 / same eq r0 5 / uncatch / return / ball 0 - a0:any / return | 2 catch
catch 1 0 / builtin 'nl'/0 / uncatch / return / ball 0 - a0:any / return | 2 catch
catch 1 0 / raise r0 / ball 0 - a0:any / return | 2 catch
catch 1 0 / raise 5 / ball 0 - a0:any / return | 2 catch
catch 1 0 / hole r1 any / fill r1 5 / uncatch / return / ball 0 - a0:any / return | 2 catch
catch 1 0 / label 1 - a0:any / uncatch / return / ball 0 - a0:any / return | line 18
catch 1 1 / label 0 - a0:any / uncatch / return / ball 1 - a0:any / return | 2 catch";

/// A procedure of a result.
const OF_RESULT: &str = "\
fill r0 5 / catch 1 0 / uncatch / return / ball 0 - / return | accepted
catch 1 0 / uncatch / fill r0 5 / return / ball 0 - / return | 1 catch
catch 1 0 / uncatch / fill r0 5 / return / ball 0 - r0:hole:any=a0 / return | 1 catch
move r1 5 / catch 2 0 / uncatch / fill r0 5 / return / ball 0 - r1:int / return | 2 catch
fill r0 5 / catch 1 0 / uncatch / return / ball 0 - / unify r1 5 / return | accepted
return / ball 0 - r0:hole:any=a0 / fill r0 5 / return | 1 hole
fail / ball 0 - r0:hole:any=a0 / fill r0 5 / return | accepted
fail / ball 0 - r0:hole:any=a0 / return | 3 hole";

#[test]
fn catchers_and_balls(rt: HostRuntime) -> Result<(), Fail> {
    answers(&rt, rt.alloc(), "2", "'p'/1 any -> any", CATCHERS)
}

#[test]
fn instructions_beside_catchers(rt: HostRuntime) -> Result<(), Fail> {
    answers(&rt, rt.alloc(), "2", "'p'/1 any -> any", BESIDE)
}

#[test]
fn catchers_and_results(rt: HostRuntime) -> Result<(), Fail> {
    answers(&rt, rt.alloc(), "2", "'p'/1 out -> any", OF_RESULT)
}
