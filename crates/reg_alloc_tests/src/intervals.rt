//! Intervals, and the numbers that they get.

use crate::harness::allocates;
use std::test::Fail;

const ALONE: &str = "\
return | return
move r5 r0 / move r1 r5 / return | move r5 r0 / move r1 r5 / return
move r63 r0 / move r1 r63 / return | move r63 r0 / move r1 r63 / return
move r64 r0 / move r1 r64 / return | move r64 r0 / move r1 r64 / return
move r70 r0 / move r1 r70 / return | move r64 r0 / move r1 r64 / return
move r1023 r0 / move r1 r1023 / return | move r64 r0 / move r1 r64 / return
move r70 r0 / return | move r64 r0 / return";

const SIDE_BY_SIDE: &str = "\
move r70 r0 / move r80 r1 / move r0 r80 / move r1 r70 / return | move r64 r0 / move r65 r1 / move r0 r65 / move r1 r64 / return
move r70 r0 / move r1 r70 / move r71 r0 / move r1 r71 / return | move r64 r0 / move r1 r64 / move r64 r0 / move r1 r64 / return
move r70 r0 / move r71 r70 / move r1 r71 / return | move r64 r0 / move r65 r64 / move r1 r65 / return
move r70 r0 / move r71 r70 / move r72 r71 / move r1 r72 / return | move r64 r0 / move r65 r64 / move r64 r65 / move r1 r64 / return
move r70 r0 / move r71 r1 / return | move r64 r0 / move r64 r1 / return
move r70 r0 / move r71 r0 / move r72 r0 / move r1 r71 / move r1 r70 / move r73 r0 / move r1 r72 / move r1 r73 / return | move r64 r0 / move r65 r0 / move r66 r0 / move r1 r65 / move r1 r64 / move r64 r0 / move r1 r66 / move r1 r64 / return
move r70 r0 / move r71 r0 / move r72 r0 / move r1 r71 / move r73 r0 / move r1 r70 / move r1 r72 / move r1 r73 / return | move r64 r0 / move r65 r0 / move r66 r0 / move r1 r65 / move r65 r0 / move r1 r64 / move r1 r66 / move r1 r65 / return
move r70 r0 / move r71 r0 / move r72 r0 / unify r72 r71 / unify r70 r0 / move r73 r0 / move r74 r0 / move r75 r0 / unify r73 r74 / unify r75 r0 / return | move r64 r0 / move r65 r0 / move r66 r0 / unify r66 r65 / unify r64 r0 / move r64 r0 / move r65 r0 / move r66 r0 / unify r64 r65 / unify r66 r0 / return
move r70 r0 / move r0 r70 / move r70 r1 / move r1 r70 / return | move r64 r0 / move r0 r64 / move r64 r1 / move r1 r64 / return
move r70 1 / arith add r71 r70 r70 / arith add r72 r71 r71 / return | move r64 1 / arith add r65 r64 r64 / arith add r64 r65 r65 / return";

/// Each push names the register of its structure too.
const PUSHES: &str = "\
lst r70 / push r0 / push_new r71 / return | lst r64 / push r0 / push_new r65 / return
lst r70 / push r0 / push r1 / fresh r71 / return | lst r64 / push r0 / push r1 / fresh r64 / return
str r70 'f'/3 / push_new r71 / push_new r72 / push_new r73 / return | str r64 'f'/3 / push_new r65 / push_new r65 / push_new r65 / return
move r70 r0 / str r71 'f'/1 / push r70 / move r0 r71 / return | move r64 r0 / str r65 'f'/1 / push r64 / move r0 r65 / return
str r70 'f'/1 / push 1 / str r71 'f'/1 / push 2 / unify r0 r71 / return | str r64 'f'/1 / push 1 / str r64 'f'/1 / push 2 / unify r0 r64 / return
str r70 'f'/1 / push 1 / str r71 'f'/2 / push r70 / push 2 / unify r0 r71 / return | str r64 'f'/1 / push 1 / str r65 'f'/2 / push r64 / push 2 / unify r0 r65 / return";

/// Items name registers, and stand in order again.
const ITEMS: &str = "\
move r70 'a' / move r65 2 / jump 0 / label 0 - a0:any a1:any r65:int r70:atm / return | move r64 'a' / move r65 2 / jump 0 / label 0 - a0:any a1:any r64:atm r65:int / return
move r70 'a' / move r69 2 / move r68 r0 / jump 0 / label 0 - a0:any a1:any r0:any=a0 r68:any=a0 r69:int r70:atm / return | move r64 'a' / move r65 2 / move r66 r0 / jump 0 / label 0 - a0:any a1:any r0:any=a0 r64:atm r65:int r66:any=a0 / return
allocate 2 / move y1 r0 / move r70 'a' / move r65 2 / label 0 f2 a0:any a1:any r65:int r70:atm y1:any=a0 / deallocate / return | allocate 2 / move y1 r0 / move r64 'a' / move r65 2 / label 0 f2 a0:any a1:any r64:atm r65:int y1:any=a0 / deallocate / return
move r70 2 / move r5 5 / match r5 6 0 / move r71 r0 / unify r71 r70 / return / label 0 - a0:any a1:any r70:int / move r72 r70 / return | move r64 2 / move r5 5 / match r5 6 0 / move r65 r0 / unify r65 r64 / return / label 0 - a0:any a1:any r64:int / move r65 r64 / return
fail / alt 0 - a0:any a1:any r80:int r90:atm / move r0 r90 / return | fail / alt 0 - a0:any a1:any r64:int r65:atm / move r0 r65 / return";

const TWO: &str = "'p'/2 any any -> any any";

#[test]
fn registers_alone(rt: HostRuntime) -> Result<(), Fail> {
    allocates(&rt, rt.alloc(), TWO, ALONE)
}

#[test]
fn intervals_side_by_side(rt: HostRuntime) -> Result<(), Fail> {
    allocates(&rt, rt.alloc(), TWO, SIDE_BY_SIDE)
}

#[test]
fn pushes_name_their_structure(rt: HostRuntime) -> Result<(), Fail> {
    allocates(&rt, rt.alloc(), TWO, PUSHES)
}

#[test]
fn items_in_order(rt: HostRuntime) -> Result<(), Fail> {
    allocates(&rt, rt.alloc(), TWO, ITEMS)
}
