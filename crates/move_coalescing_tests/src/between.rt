//! Moves that stay, each by one condition.

use crate::harness::stays;
use std::test::Fail;

const NAMED: &str = "\
fresh r64 / unify r0 5 / move r0 r64 / exec 'one'/1
fresh r64 / move r1 r0 / move r0 r64 / exec 'two'/2
fresh r64 / move r0 6 / move r0 r64 / exec 'one'/1
fresh r64 / builtin 'nonvar'/1 / move r0 r64 / exec 'one'/1
fresh r64 / builtin '@<'/2 / move r0 r64 / exec 'one'/1
lst r64 / push r0 / push '[]' / move r0 r64 / exec 'one'/1
lst r0 / push_new r64 / push '[]' / move r0 r64 / exec 'one'/1
lst r0 / push 5 / push_new r64 / move r0 r64 / exec 'one'/1";

#[test]
fn nothing_between_names_the_argument(rt: HostRuntime) -> Result<(), Fail> {
    stays(&rt, rt.alloc(), "'p'/2 any any -> any any", NAMED)
}

const READ: &str = "\
fresh r64 / move r0 r64 / lst r1 / push r64 / push '[]' / exec 'two'/2
fresh r64 / move r0 r64 / unify r64 5 / return
fresh r64 / move r0 r64 / unify r1 r64 / return
fresh r64 / move r0 r64 / bind r64 5 / return
fresh r64 / fresh r65 / move r0 r64 / bind r65 r64 / return
fresh r64 / move r0 r64 / same eq r64 5 / return
fresh r64 / move r0 r64 / same eq 5 r64 / return
fresh r64 / move r0 r64 / deref r65 r64 / return
fresh r64 / move r0 r64 / eval r65 r64 / return
fresh r64 / move r0 r64 / allocate 1 / move y0 r64 / call 'one'/1 / deallocate / return
lst r64 / push 1 / push '[]' / move r0 r64 / load r65 r64 0 / return
builtin 'nonvar'/1 / deref r64 r0 / move r0 r64 / match r64 5 - / return
builtin 'nonvar'/1 / deref r64 r0 / move r0 r64 / functor r64 'f'/1 - / return
mark r64 / move r0 r64 / cut r64 / return
eval r64 r0 / move r0 r64 / arith add r65 r64 1 / return
eval r64 r0 / move r0 r64 / arith add r65 1 r64 / return
eval r64 r0 / move r0 r64 / less lt r64 1 / return
eval r64 r0 / move r0 r64 / less lt 1 r64 / return
fresh r64 / move r0 r64 / builtin 'nonvar'/1 / raise r64";

#[test]
fn nothing_behind_reads_the_first_register(rt: HostRuntime) -> Result<(), Fail> {
    stays(&rt, rt.alloc(), "'p'/2 any any -> any any", READ)
}

const ENDS: &str = "\
fresh r64 / move r0 r64 / jump 0 / label 0 - a0:any r0:any r64:any / return
fresh r64 / move r0 r64 / label 0 - a0:any r64:any / return
deref r64 r0 / label 0 - a0:any r64:any / move r0 r64 / return
builtin 'nonvar'/1 / deref r1 r0 / fresh r64 / match r1 5 0 / move r0 r64 / return / label 0 - a0:any / return
builtin 'nonvar'/1 / deref r1 r0 / fresh r64 / move r0 r64 / match r1 5 0 / return / label 0 - a0:any r64:any / return
fresh r64 / try 1 0 / move r0 r64 / exec 'one'/1 / alt 0 - a0:any r0:any / trust / return
fresh r64 / catch 1 0 / move r0 r64 / uncatch / return / ball 0 - a0:any r0:any / return";

#[test]
fn run_goes_straight_from_the_line_to_the_end(rt: HostRuntime) -> Result<(), Fail> {
    stays(&rt, rt.alloc(), "'p'/1 any -> any", ENDS)
}

const PLACES: &str = "\
fresh r1 / move r0 r1 / exec 'one'/1
fresh r64 / move r65 r64 / unify r0 r65 / return
allocate 1 / fresh r64 / move y0 r64 / call 'plain'/0 / move r0 y0 / deallocate / exec 'one'/1
move r1 r0 / exec 'two'/2";

#[test]
fn argument_is_below_r64_and_the_first_register_is_not(rt: HostRuntime) -> Result<(), Fail> {
    stays(&rt, rt.alloc(), "'p'/1 any -> any", PLACES)
}
