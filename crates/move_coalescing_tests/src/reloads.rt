//! Moves of a slot to the register whose word it has.

use crate::harness::{becomes, stays};
use std::test::Fail;

const GOES: &str = "\
allocate 1 / move y0 r0 / move r0 y0 / call 'one'/1 / deallocate / return | allocate 1 / move y0 r0 / call 'one'/1 / deallocate / return
allocate 1 / move y0 r1 / move r0 5 / move r1 y0 / call 'two'/2 / deallocate / return | allocate 1 / move y0 r1 / move r0 5 / call 'two'/2 / deallocate / return
allocate 2 / move y0 r0 / move y1 r1 / unify r1 5 / move r1 y1 / move r0 y0 / call 'two'/2 / deallocate / return | allocate 2 / move y0 r0 / move y1 r1 / unify r1 5 / call 'two'/2 / deallocate / return";

#[test]
fn word_is_still_in_the_register(rt: HostRuntime) -> Result<(), Fail> {
    becomes(&rt, rt.alloc(), "'p'/2 any any -> any any", GOES)
}

const STAYS: &str = "\
allocate 1 / move y0 r0 / move r0 5 / move r0 y0 / call 'one'/1 / deallocate / return
allocate 1 / move y0 r0 / move r1 y0 / call 'two'/2 / deallocate / return
allocate 1 / move y0 r0 / call 'one'/1 / move r0 y0 / call 'one'/1 / deallocate / return
allocate 1 / move y0 r0 / deallocate / allocate 1 / move y0 r1 / move r0 y0 / call 'one'/1 / deallocate / return
allocate 2 / move y0 r0 / move y1 r1 / move r0 y1 / move r1 y0 / call 'two'/2 / deallocate / return
allocate 1 / move y0 r0 / label 0 f1 a0:any a1:any r0:any y0:any / move r0 y0 / call 'one'/1 / deallocate / return";

const FILLED: &str = "\
allocate 1 / move y0 r1 / move r64 y0 / fill r64 5 / move y0 r2 / move r1 y0 / call 'two'/2 / deallocate / return";

#[test]
fn slot_is_set_anew_behind_a_fill(rt: HostRuntime) -> Result<(), Fail> {
    stays(&rt, rt.alloc(), "'p'/3 any out any -> any full any", FILLED)
}

#[test]
fn register_was_set_since(rt: HostRuntime) -> Result<(), Fail> {
    stays(&rt, rt.alloc(), "'p'/2 any any -> any any", STAYS)
}
