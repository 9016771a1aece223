//! Holes and what holds them.

use crate::harness::{becomes, stays};
use std::test::Fail;

const MERGED: &str = "\
fill r1 5 / hole r64 full / move r1 r64 / exec 'makes'/2 | fill r1 5 / hole r1 full / exec 'makes'/2
lst r64 / push 1 / hole r65 full / fill r1 r64 / move r1 r65 / exec 'makes'/2 | lst r64 / push 1 / hole r65 full / fill r1 r64 / move r1 r65 / exec 'makes'/2
fresh r64 / fill r1 r64 / move r0 r64 / return | fresh r0 / fill r1 r0 / return";

#[test]
fn hole_is_made_in_its_argument(rt: HostRuntime) -> Result<(), Fail> {
    becomes(&rt, rt.alloc(), "'p'/2 any out -> any any", MERGED)
}

const STAYS: &str = "\
hole r64 full / move r65 r64 / fill r65 5 / fill r1 5 / return
fresh r64 / move r0 r64 / fill r1 r64 / return";

#[test]
fn hole_that_is_filled_stays(rt: HostRuntime) -> Result<(), Fail> {
    stays(&rt, rt.alloc(), "'p'/2 any out -> any any", STAYS)
}
