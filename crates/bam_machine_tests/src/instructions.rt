use crate::fronts::{ONE, POOL, TWO, VALUE};
use crate::harness::runs_of;
use std::test::Fail;

const MOVES: &str = "\
return | p(a) | 3 0 0 0 0 | true / ; / no / % code 1 steps 3 choices 0
return | p(X) | 4 1 0 0 0 | X = _0 / ; / no / % code 1 steps 4 choices 0
return | p(f(X,Y,X)) | 6 4 0 0 0 | X = _0 / Y = _1 / ; / no / % code 1 steps 6 choices 0
move r1 r0 / move r2 'a' / move r3 5 / return | p(X) | 7 1 0 0 0 | X = _0 / ; / no / % code 4 steps 7 choices 0
allocate 2 / move y0 r0 / move y1 7 / move r1 y0 / move r2 y1 / deallocate / return | p(X) | 10 1 4 0 0 | X = _0 / ; / no / % code 7 steps 10 choices 0
allocate 3 / move y0 r0 / move y1 y0 / move y2 'a' / deref r1 y1 / deallocate / return | p(X) | 10 1 5 0 0 | X = _0 / ; / no / % code 7 steps 10 choices 0
deref r0 r0 / return | p(X) | 5 1 0 0 0 | X = _0 / ; / no / % code 2 steps 5 choices 0";

#[test]
fn words_are_moved(rt: HostRuntime) -> Result<(), Fail> {
    runs_of(&rt, rt.alloc(), ONE, MOVES)
}

const STRUCTURES: &str = "\
str r1 'f'/2 / push 1 / push_new r2 / unify r0 r1 / return | p(X) | 11 4 0 0 0 | X = f(1,_0) / ; / no / % code 5 steps 11 choices 0
lst r1 / push 1 / push '[]' / unify r0 r1 / return | p(X) | 11 3 0 0 0 | X = [1] / ; / no / % code 5 steps 11 choices 0
fresh r1 / unify r0 r1 / return | p(X) | 7 2 0 0 0 | X = _0 / ; / no / % code 3 steps 7 choices 0
fresh r1 / bind r1 r0 / return | p(X) | 6 2 0 0 0 | X = _0 / ; / no / % code 3 steps 6 choices 0
fresh r1 / bind r1 'c' / unify r0 r1 / return | p(X) | 8 2 0 0 0 | X = c / ; / no / % code 4 steps 8 choices 0
allocate 1 / move y0 'a' / str r1 'g'/1 / push y0 / unify r0 r1 / deallocate / return | p(X) | 12 3 3 0 0 | X = g(a) / ; / no / % code 7 steps 12 choices 0";

#[test]
fn structures_are_made(rt: HostRuntime) -> Result<(), Fail> {
    runs_of(&rt, rt.alloc(), ONE, STRUCTURES)
}

const UNIFICATIONS: &str = "\
unify r0 'a' / return | p(X) | 6 6 0 0 0 | X = a / ; / no / % code 2 steps 6 choices 0
unify r0 'a' / return | p(b) | 2 5 0 0 0 | no / % code 2 steps 2 choices 0
unify r0 #0 / return | p(X) | 9 6 0 0 0 | X = f(1,g(a)) / ; / no / % code 2 steps 9 choices 0
unify r0 #0 / return | p(f(1,g(a))) | 8 10 0 0 0 | true / ; / no / % code 2 steps 8 choices 0
unify r0 #0 / return | p(f(1,g(b))) | 5 10 0 0 0 | no / % code 2 steps 5 choices 0
unify r0 #0 / return | p(f(X,g(X))) | 5 10 0 0 0 | no / % code 2 steps 5 choices 0
unify r0 #0 / return | p(f(X,g(Y))) | 10 10 0 0 0 | X = 1 / Y = a / ; / no / % code 2 steps 10 choices 0
unify r0 #0 / return | p(f(1)) | 2 7 0 0 0 | no / % code 2 steps 2 choices 0
move r1 #0 / unify r0 r1 / return | p(X) | 10 6 0 0 0 | X = f(1,g(a)) / ; / no / % code 3 steps 10 choices 0";

#[test]
fn terms_are_unified(rt: HostRuntime) -> Result<(), Fail> {
    runs_of(&rt, rt.alloc(), POOL, UNIFICATIONS)
}

/// A switch with code for each kind of term.
const SWITCH: &str =
    "deref r0 r0 / switch r0 var=0 atm=1 int=2 lst=3 str=4 / label 0 - a0:any r0:var=a0 / bind r0 'v' / return / label 1 - a0:ground r0:atm=a0 / match r0 'a' - / return / label 2 - a0:ground r0:int=a0 / match r0 7 - / return / label 3 - a0:nonvar r0:lst=a0 / load r1 r0 0 / return / label 4 - a0:nonvar r0:direct=a0 / functor r0 'f'/1 - / load r1 r0 1 / return";

const KINDS: &str = "\
p(X) | 7 1 0 0 0 | X = v / ; / no / % code 13 steps 7 choices 0
p(a) | 6 0 0 0 0 | true / ; / no / % code 13 steps 6 choices 0
p(b) | 3 0 0 0 0 | no / % code 13 steps 3 choices 0
p(7) | 6 0 0 0 0 | true / ; / no / % code 13 steps 6 choices 0
p(8) | 3 0 0 0 0 | no / % code 13 steps 3 choices 0
p([c]) | 6 2 0 0 0 | true / ; / no / % code 13 steps 6 choices 0
p(f(1)) | 7 2 0 0 0 | true / ; / no / % code 13 steps 7 choices 0
p(g(1)) | 3 2 0 0 0 | no / % code 13 steps 3 choices 0
p(f(1,2)) | 3 3 0 0 0 | no / % code 13 steps 3 choices 0";

#[test]
fn switches_go_on_by_the_kind_of_a_term(rt: HostRuntime) -> Result<(), Fail> {
    let alloc = rt.alloc();
    for row in KINDS.lines() {
        let row = format!(in alloc; "{SWITCH} | {row}")?;
        runs_of(&rt, alloc, ONE, row.as_str())?;
    }
    Ok(())
}

const BRANCHES: &str = "\
jump 0 / label 0 - a0:any r0:any=a0 / return | p(a) | 4 0 0 0 0 | true / ; / no / % code 2 steps 4 choices 0
jump - | p(a) | 1 0 0 0 0 | no / % code 1 steps 1 choices 0
fail | p(a) | 1 0 0 0 0 | no / % code 1 steps 1 choices 0
deref r0 r0 / switch r0 var=- atm=0 int=- lst=- str=- / label 0 - a0:ground r0:atm=a0 / return | p(X) | 2 1 0 0 0 | no / % code 3 steps 2 choices 0
deref r0 r0 / switch r0 var=- atm=0 int=- lst=- str=- / label 0 - a0:ground r0:atm=a0 / match r0 'a' 1 / return / label 1 - a0:ground / fail | p(b) | 4 0 0 0 0 | no / % code 5 steps 4 choices 0";

#[test]
fn branches_fail_in_their_own_step(rt: HostRuntime) -> Result<(), Fail> {
    runs_of(&rt, rt.alloc(), ONE, BRANCHES)
}

const CHOICES: &str = "\
try 1 0 / unify r0 'a' / return / alt 0 - a0:any r0:any=a0 / retry 1 / unify r0 'b' / return / alt 1 - a0:any r0:any=a0 / trust / unify r0 'c' / return | p(X) | 21 1 0 9 1 | X = a / ; / X = b / ; / X = c / ; / no / % code 9 steps 21 choices 1
try 1 0 / unify r0 'a' / return / alt 0 - a0:any r0:any=a0 / retry 1 / unify r0 'b' / return / alt 1 - a0:any r0:any=a0 / trust / unify r0 'c' / return | p(b) | 12 0 0 9 0 | true / ; / no / % code 9 steps 12 choices 1
mark r1 / try 2 0 / unify r0 'a' / cut r1 / return / alt 0 - a0:any r0:any=a0 r1:bar / trust / unify r0 'b' / return | p(X) | 9 1 0 10 1 | X = a / ; / no / % code 8 steps 9 choices 1
mark r1 / try 2 0 / unify r0 'a' / cut r1 / return / alt 0 - a0:any r0:any=a0 r1:bar / trust / unify r0 'b' / return | p(b) | 10 0 0 10 0 | true / ; / no / % code 8 steps 10 choices 1";

#[test]
fn choices_are_taken_in_order_and_cut(rt: HostRuntime) -> Result<(), Fail> {
    runs_of(&rt, rt.alloc(), ONE, CHOICES)
}

const TRAILED: &str = "\
try 2 0 / unify r0 'a' / unify r1 'b' / fail / alt 0 - a0:any a1:any r0:any=a0 r1:any=a1 / trust / return | p(X,Y) | 13 2 0 10 2 | X = _0 / Y = _1 / ; / no / % code 6 steps 13 choices 1
try 2 0 / unify r0 r1 / return / alt 0 - a0:any a1:any r0:any=a0 r1:any=a1 / trust / return | p(X,Y) | 16 2 0 10 1 | X = _0 / Y = _0 / ; / X = _0 / Y = _1 / ; / no / % code 5 steps 16 choices 1
same eq r0 r1 / return | p(f(X),f(X)) | 7 4 0 0 0 | X = _0 / ; / no / % code 2 steps 7 choices 0
same eq r0 r1 / return | p(X,Y) | 2 2 0 0 0 | no / % code 2 steps 2 choices 0
same ne r0 r1 / return | p(X,Y) | 8 2 0 0 0 | X = _0 / Y = _1 / ; / no / % code 2 steps 8 choices 0
same ne r0 'a' / return | p(a,b) | 2 0 0 0 0 | no / % code 2 steps 2 choices 0";

#[test]
fn bindings_are_undone(rt: HostRuntime) -> Result<(), Fail> {
    runs_of(&rt, rt.alloc(), TWO, TRAILED)
}

const CALLS: &str = "\
allocate 1 / move y0 r0 / call 'q'/1 / move r0 y0 / deallocate / exec 'q'/1 / end / proc 'q'/1 any -> any / unify r0 'a' / return | p(X) | 15 1 3 0 0 | X = a / ; / no / % code 8 steps 15 choices 0
allocate 1 / move y0 r0 / call 'q'/1 / move r0 y0 / deallocate / exec 'r'/1 / end / proc 'q'/1 any -> any / try 1 0 / unify r0 'a' / return / alt 0 - a0:any r0:any=a0 / trust / unify r0 'b' / return / end / proc 'r'/1 any -> any / unify r0 'b' / return | p(X) | 25 1 3 9 1 | X = b / ; / no / % code 14 steps 25 choices 1
allocate 1 / move y0 r0 / call 'q'/1 / move r0 y0 / deallocate / exec 'q'/1 / end / proc 'q'/1 any -> any / allocate 4 / deallocate / return | p(X) | 15 1 9 0 0 | X = _0 / ; / no / % code 9 steps 15 choices 0";

#[test]
fn procedures_are_called_and_return(rt: HostRuntime) -> Result<(), Fail> {
    runs_of(&rt, rt.alloc(), ONE, CALLS)
}

const VALUES: &str = "\
eval r2 r0 / arith add r2 r2 1 / fill r1 r2 / return | p(3,X) | 8 1 0 0 0 | X = 4 / ; / no / % code 4 steps 8 choices 0
eval r2 r0 / arith add r2 r2 1 / fill r1 r2 / return | p(1+2,X) | 10 4 0 0 0 | X = 4 / ; / no / % code 4 steps 10 choices 0
eval r2 r0 / arith add r2 r2 1 / fill r1 r2 / return | p(foo,X) | 7 10 0 0 0 | error: type_error(evaluable,foo/0) / % code 4 steps 7 choices 0
eval r2 r0 / arith add r2 r2 1 / fill r1 r2 / return | p(Y,X) | 3 5 0 0 0 | error: instantiation_error / % code 4 steps 3 choices 0
eval r2 r0 / arith add r2 r2 1 / fill r1 r2 / return | p(1//0,X) | 6 9 0 0 0 | error: evaluation_error(zero_divisor) / % code 4 steps 6 choices 0
eval r2 r0 / arith add r2 r2 1 / fill r1 r2 / return | p(9223372036854775807,X) | 5 6 0 0 0 | error: evaluation_error(int_overflow) / % code 4 steps 5 choices 0
eval r2 r0 / arith sub r3 0 r2 / arith mul r2 r2 r3 / fill r1 r2 / return | p(3,X) | 9 1 0 0 0 | X = -9 / ; / no / % code 5 steps 9 choices 0
eval r2 r0 / less lt r2 5 / fill r1 r2 / return | p(3,X) | 8 1 0 0 0 | X = 3 / ; / no / % code 4 steps 8 choices 0
eval r2 r0 / less lt r2 5 / fill r1 r2 / return | p(7,X) | 3 1 0 0 0 | no / % code 4 steps 3 choices 0
eval r2 r0 / allocate 1 / move y0 r2 / arith add r3 y0 y0 / less gt 10 y0 / eval r4 y0 / deallocate / fill r1 r3 / return | p(3,X) | 14 1 3 0 0 | X = 6 / ; / no / % code 9 steps 14 choices 0
eval r2 5 / fill r1 r2 / builtin 'integer'/1 / return | p(5,X) | 8 1 0 0 0 | X = 5 / ; / no / % code 4 steps 8 choices 0";

#[test]
fn integers_are_reckoned_with(rt: HostRuntime) -> Result<(), Fail> {
    runs_of(&rt, rt.alloc(), VALUE, VALUES)
}
