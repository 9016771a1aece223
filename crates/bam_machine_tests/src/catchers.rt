use crate::fronts::{CATCHING, POOL};
use crate::harness::runs_of;
use std::test::Fail;

/// A catcher around a call of `q/1`, whose ball is unified with the argument.
const UNIFIED: &str =
    "catch 1 0 / allocate 1 / call 'q'/1 / uncatch / deallocate / return / ball 0 - a0:any r0:any=a0 / unify r0 r1 / return / end / proc 'q'/1 any -> any";

const BALLS: &str = "\
raise 'b' | p(X) | 11 1 3 9 0 | X = b / ; / no / % code 9 steps 11 choices 0
return | p(X) | 11 1 3 9 0 | X = _0 / ; / no / % code 9 steps 11 choices 0
str r1 'g'/2 / push 1 / push_new r2 / raise r1 | p(X) | 18 4 3 9 0 | X = g(1,_0) / ; / no / % code 12 steps 18 choices 0
str r1 'g'/3 / push 1 / push 2 / push 3 / raise 'b' | p(X) | 15 5 3 9 0 | X = b / ; / no / % code 13 steps 15 choices 0
unify r0 'a' / raise r0 | p(X) | 13 1 3 9 1 | X = a / ; / no / % code 10 steps 13 choices 0
raise r0 | p(X) | 15 4 3 9 0 | X = error(instantiation_error,[]) / ; / no / % code 9 steps 15 choices 0
eval r1 r0 / return | p(a) | 14 9 3 9 0 | no / % code 10 steps 14 choices 0
try 1 0 / fail / alt 0 - a0:any r0:any=a0 / trust / raise 'b' | p(X) | 14 1 3 18 0 | X = b / ; / no / % code 12 steps 14 choices 1";

#[test]
fn balls_come_to_the_innermost_catcher(rt: HostRuntime) -> Result<(), Fail> {
    let alloc = rt.alloc();
    for row in BALLS.lines() {
        let row = format!(in alloc; "{UNIFIED} / {row}")?;
        runs_of(&rt, alloc, CATCHING, row.as_str())?;
    }
    Ok(())
}

/// A catcher around a call of `q/1`, whose ball is let go.
const DROPPED: &str =
    "catch 1 0 / allocate 1 / call 'q'/1 / uncatch / deallocate / return / ball 0 - a0:any r0:any=a0 / return / end / proc 'q'/1 any -> any";

const COPIES: &str = "\
raise r0 | p(f(X,X)) | 12 6 3 9 0 | X = _0 / ; / no / % code 8 steps 12 choices 0
str r1 'g'/2 / push r0 / push_new r2 / raise r1 | p(f(X,X)) | 18 9 3 9 0 | X = _0 / ; / no / % code 11 steps 18 choices 0
catch 1 0 / allocate 1 / call 'r'/1 / uncatch / deallocate / return / ball 0 - a0:any r0:any=a0 / raise 'two' / end / proc 'r'/1 any -> any / raise 'one' | p(a) | 13 0 6 18 0 | true / ; / no / % code 15 steps 13 choices 0";

#[test]
fn copies_of_balls_stand_on_the_catchers_heap(rt: HostRuntime) -> Result<(), Fail> {
    let alloc = rt.alloc();
    for row in COPIES.lines() {
        let row = format!(in alloc; "{DROPPED} / {row}")?;
        runs_of(&rt, alloc, CATCHING, row.as_str())?;
    }
    Ok(())
}

const RAISED: &str = "\
raise r0 | p(X) | 2 4 0 0 0 | error: instantiation_error / % code 1 steps 2 choices 0
raise r0 | p(error(a,b)) | 2 3 0 0 0 | error: a / % code 1 steps 2 choices 0
raise r0 | p(error(X)) | 3 2 0 0 0 | error: error(_0) / % code 1 steps 3 choices 0
raise r0 | p(f(X,'Y',X)) | 6 4 0 0 0 | error: f(_0,'Y',_0) / % code 1 steps 6 choices 0
builtin 'write'/1 / raise r0 | p(a) | 4 0 0 0 0 | a / error: a / % code 2 steps 4 choices 0";

#[test]
fn a_ball_that_nothing_catches_is_told(rt: HostRuntime) -> Result<(), Fail> {
    runs_of(&rt, rt.alloc(), CATCHING, RAISED)
}

const CONSTANTS: &str = "\
raise 'b' | p(a) | 2 5 0 0 0 | error: b / % code 1 steps 2 choices 0
raise 7 | p(a) | 2 5 0 0 0 | error: 7 / % code 1 steps 2 choices 0
raise #0 | p(a) | 5 5 0 0 0 | error: f(1,g(a)) / % code 1 steps 5 choices 0";

#[test]
fn constants_and_entries_of_the_pool_are_raised(rt: HostRuntime) -> Result<(), Fail> {
    runs_of(&rt, rt.alloc(), POOL, CONSTANTS)
}
