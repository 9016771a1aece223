//! Each line that names registers.

use crate::harness::allocates;
use std::test::Fail;

const NAMED: &str = "\
move r90 5 / move r91 r90 / return | move r64 5 / move r65 r64 / return
allocate 1 / move r90 5 / move y0 r90 / deallocate / return | allocate 1 / move r64 5 / move y0 r64 / deallocate / return
allocate 1 / move y0 5 / move r90 y0 / deallocate / return | allocate 1 / move y0 5 / move r64 y0 / deallocate / return
deref r90 r0 / deref r91 r90 / return | deref r64 r0 / deref r65 r64 / return
move r90 #1 / load r91 r90 0 / load r92 r90 1 / return | move r64 #1 / load r65 r64 0 / load r65 r64 1 / return
str r90 'f'/1 / push r0 / unify r0 r90 / return | str r64 'f'/1 / push r0 / unify r0 r64 / return
lst r90 / push_new r91 / push r91 / unify r0 r90 / return | lst r64 / push_new r65 / push r65 / unify r0 r64 / return
fresh r90 / bind r90 5 / return | fresh r64 / bind r64 5 / return
fresh r91 / fresh r90 / bind r90 r91 / return | fresh r64 / fresh r65 / bind r65 r64 / return
move r90 r0 / unify r90 r1 / return | move r64 r0 / unify r64 r1 / return
deref r90 r0 / switch r90 var=- atm=- int=0 lst=- str=- / label 0 - a0:any a1:any r90:int / match r90 5 - / return | deref r64 r0 / switch r64 var=- atm=- int=0 lst=- str=- / label 0 - a0:any a1:any r64:int / match r64 5 - / return
deref r90 r0 / switch r90 var=- atm=- int=- lst=- str=0 / label 0 - a0:any a1:any r90:direct / functor r90 'f'/1 - / load r91 r90 1 / return | deref r64 r0 / switch r64 var=- atm=- int=- lst=- str=0 / label 0 - a0:any a1:any r64:direct / functor r64 'f'/1 - / load r65 r64 1 / return
mark r90 / cut r90 / return | mark r64 / cut r64 / return
eval r90 r0 / eval r91 r1 / arith add r92 r90 r91 / less lt r92 r90 / return | eval r64 r0 / eval r65 r1 / arith add r66 r64 r65 / less lt r66 r64 / return
eval r90 r0 / less ge 5 r90 / return | eval r64 r0 / less ge 5 r64 / return
move r90 r0 / move r91 r1 / same eq r90 r91 / same ne r91 r90 / return | move r64 r0 / move r65 r1 / same eq r64 r65 / same ne r65 r64 / return
move r90 r0 / raise 5 | move r64 r0 / raise 5
allocate 1 / hole r90 any / move r0 r90 / call 'makes'/1 / deallocate / return | allocate 1 / hole r64 any / move r0 r64 / call 'makes'/1 / deallocate / return
try 2 0 / return / alt 0 - a0:any a1:any r0:any=a0 / trust / move r90 r0 / unify r90 1 / return | try 2 0 / return / alt 0 - a0:any a1:any r0:any=a0 / trust / move r64 r0 / unify r64 1 / return";

/// A procedure of a result, whose hole is filled.
const FILLED: &str = "\
move r90 r0 / fill r90 5 / return | move r64 r0 / fill r64 5 / return
move r80 5 / move r90 r0 / fill r90 r80 / return | move r64 5 / move r65 r0 / fill r65 r64 / return
move r90 r0 / lst r80 / push 1 / hole r81 any / fill r90 r80 / move r0 r81 / exec 'makes'/1 | move r64 r0 / lst r65 / push 1 / hole r66 any / fill r64 r65 / move r0 r66 / exec 'makes'/1";

#[test]
fn lines_that_name_registers(rt: HostRuntime) -> Result<(), Fail> {
    allocates(&rt, rt.alloc(), "'p'/2 any any -> any any", NAMED)
}

#[test]
fn holes_of_results(rt: HostRuntime) -> Result<(), Fail> {
    allocates(&rt, rt.alloc(), "'p'/1 out -> any", FILLED)
}
