//! The code of programs that are made from seeds.

use crate::promises::assert_kept_by_made;
use std::test::Fail;

#[test]
fn seeds_from_0(rt: HostRuntime) -> Result<(), Fail> {
    assert_kept_by_made(&rt, rt.alloc(), 0)
}

#[test]
fn seeds_from_1000(rt: HostRuntime) -> Result<(), Fail> {
    assert_kept_by_made(&rt, rt.alloc(), 1_000)
}

#[test]
fn seeds_from_2000(rt: HostRuntime) -> Result<(), Fail> {
    assert_kept_by_made(&rt, rt.alloc(), 2_000)
}

#[test]
fn seeds_from_3000(rt: HostRuntime) -> Result<(), Fail> {
    assert_kept_by_made(&rt, rt.alloc(), 3_000)
}

#[test]
fn seeds_from_4000(rt: HostRuntime) -> Result<(), Fail> {
    assert_kept_by_made(&rt, rt.alloc(), 4_000)
}
