//! Moves that are merged into the line that sets their word.

use crate::harness::becomes;
use std::test::Fail;

const ANY: &str = "\
move r64 #0 / move r0 r64 / exec 'one'/1 | move r0 #0 / exec 'one'/1
move r64 5 / move r0 r64 / return | move r0 5 / return
fresh r64 / move r1 r64 / exec 'two'/2 | fresh r1 / exec 'two'/2
deref r64 r0 / move r0 r64 / exec 'one'/1 | deref r0 r0 / exec 'one'/1
eval r64 r0 / arith sub r64 r64 1 / move r0 r64 / exec 'one'/1 | eval r64 r0 / arith sub r0 r64 1 / exec 'one'/1
eval r64 r0 / less lt r64 5 / move r0 r64 / exec 'one'/1 | eval r0 r0 / less lt r0 5 / exec 'one'/1
str r64 'f'/2 / push r0 / push_new r65 / move r0 r65 / move r1 r64 / exec 'two'/2 | str r1 'f'/2 / push r0 / push_new r0 / exec 'two'/2
lst r64 / push r0 / push '[]' / load r65 r64 0 / move r0 r65 / move r1 r64 / exec 'two'/2 | lst r1 / push r0 / push '[]' / load r0 r1 0 / exec 'two'/2
lst r64 / push 1 / push '[]' / unify r0 r64 / move r1 r64 / exec 'two'/2 | lst r1 / push 1 / push '[]' / unify r0 r1 / exec 'two'/2
allocate 1 / move y0 r0 / move r64 7 / move r0 r64 / call 'one'/1 / deref r64 y0 / move r0 r64 / deallocate / exec 'one'/1 | allocate 1 / move y0 r0 / move r0 7 / call 'one'/1 / deref r0 y0 / deallocate / exec 'one'/1
fresh r64 / move r0 r64 / move r1 r64 / exec 'two'/2 | fresh r1 / move r0 r1 / exec 'two'/2
fresh r64 / fresh r65 / move r0 r64 / move r1 r65 / exec 'two'/2 | fresh r0 / fresh r1 / exec 'two'/2
fresh r64 / move r65 r64 / move r1 r65 / exec 'two'/2 | fresh r1 / exec 'two'/2
move r64 r0 / move r0 r64 / exec 'one'/1 | exec 'one'/1
move r64 5 / move r0 r64 / move r64 6 / move r1 r64 / exec 'two'/2 | move r0 5 / move r1 6 / exec 'two'/2
builtin 'nonvar'/1 / deref r64 r0 / match r64 5 - / move r0 r64 / exec 'one'/1 | builtin 'nonvar'/1 / deref r0 r0 / match r0 5 - / exec 'one'/1
move r64 5 / move r0 r64 / builtin 'nonvar'/1 / return | move r0 5 / builtin 'nonvar'/1 / return";

#[test]
fn line_sets_the_argument_at_once(rt: HostRuntime) -> Result<(), Fail> {
    becomes(&rt, rt.alloc(), "'p'/1 any -> any", ANY)
}

const TWO: &str = "\
move r64 r1 / move r65 r0 / move r0 r64 / move r1 r65 / exec 'two'/2 | move r64 r1 / move r1 r0 / move r0 r64 / exec 'two'/2
move r64 r0 / move r65 r1 / move r0 r65 / move r1 r64 / exec 'two'/2 | move r64 r0 / move r0 r1 / move r1 r64 / exec 'two'/2
fresh r64 / move r65 r0 / move r0 r64 / move r1 r65 / exec 'two'/2 | fresh r64 / move r1 r0 / move r0 r64 / exec 'two'/2";

#[test]
fn swapped_arguments_keep_one_register_between(rt: HostRuntime) -> Result<(), Fail> {
    becomes(&rt, rt.alloc(), "'p'/2 any any -> any any", TWO)
}

const LIST: &str = "\
switch r0 var=* atm=- int=- lst=0 str=- / label 0 - a0:any r0:lst=a0 / load r64 r0 0 / load r65 r0 1 / move r1 r64 / move r0 r65 / exec 'two'/2 | switch r0 var=* atm=- int=- lst=0 str=- / label 0 - a0:any r0:lst=a0 / load r1 r0 0 / load r0 r0 1 / exec 'two'/2";

#[test]
fn load_may_read_what_it_then_sets(rt: HostRuntime) -> Result<(), Fail> {
    becomes(&rt, rt.alloc(), "'p'/1 direct -> any", LIST)
}
