//! Goals with the exact lines. Label 0 stands before each goal.

use crate::harness::rows;
use std::test::Fail;

const CONSTANTS: &str = "\
X:out:nowhere | X = c | move r64 'c'
X:full:head | X = c | match r0 'c' -
X:ground:head | X = 7 | deref r0 r0 / match r0 7 -
X:any:head | X = c | deref r0 r0 / switch r0 var=1 atm=2 int=- lst=- str=- / label 1 - a0:any r0:var=a0 / bind r0 'c' / jump 3 / label 2 - a0:any r0:atm=a0 / match r0 'c' - / label 3 - a0:ground r0:ground=a0
X:any:slot | X = 7 | deref r64 y0 / switch r64 var=1 atm=- int=2 lst=- str=- / label 1 f1 a0:any r64:var y0:any / bind r64 7 / jump 3 / label 2 f1 a0:any r64:int y0:any / match r64 7 - / label 3 f1 a0:any y0:any / move r0 y0 / builtin 'atomic'/1
X:any:headslot | X = c | deref r64 y0 / switch r64 var=1 atm=2 int=- lst=- str=- / label 1 f1 a0:any r64:var=a0 y0:any=a0 / bind r64 'c' / jump 3 / label 2 f1 a0:any r64:atm=a0 y0:any=a0 / match r64 'c' - / label 3 f1 a0:ground y0:ground=a0
X:full:boxed | X = c | deref r64 y0 / match r64 'c' -
X:full:slot | X = c | move r64 y0 / match r64 'c' -
X:out:hole | X = c | fill r0 'c'
X:out:holeslot | X = c | move r64 y0 / fill r64 'c'
X:out:nowhere | X = g(c) | move r64 #0
X:any:head | X = g(c) | unify r0 #0
X:any:slot | X = g(c) | move r64 y0 / unify r64 #0
X:out:hole | X = g(c) | fill r0 #0";

const VARIABLES: &str = "\
X:out:nowhere A:out:nowhere | X = A | fresh r65 / move r64 r65 / label 1 - r64:any r65:any
X:out:nowhere A:direct:head | X = A | move r64 r0 / label 1 - a0:nonvar r0:direct=a0 r64:direct
X:any:boxed A:out:nowhere | X = A | deref r64 y0 / label 1 f1 r64:any y0:any
X:any:head A:ground:local | X = A | unify r0 r1
X:any:slot A:any:slot | X = A | move r64 y0 / unify r64 y1
X:out:nowhere | X = X | fresh r64 / unify r64 r64
X:out:hole A:out:nowhere | X = A | fresh r64 / fill r0 r64
X:out:holeslot A:full:boxed | X = A | move r64 y0 / fill r64 y1";

const BARRIERS: &str = "\
X:any:head B:any:barrier | X = c | deref r0 r0 / switch r0 var=1 atm=2 int=- lst=- str=- / label 1 - a0:any r0:var=a0 r1:bar / bind r0 'c' / jump 3 / label 2 - a0:any r0:atm=a0 r1:bar / match r0 'c' - / label 3 - a0:ground r0:ground=a0 r1:bar
X:out:nowhere A:full:boxed B:any:barrierslot | X = A | deref r64 y1 / label 1 f2 r64:full y0:bar y1:cell:full";

const MADE: &str = "\
X:out:nowhere A:out:nowhere B:full:head | X = f(g(A),B) | str r66 'g'/1 / push_new r65 / str r64 'f'/2 / push r66 / push r0
X:out:nowhere A:full:boxed | X = [A] | deref r65 y0 / lst r64 / push r65 / push '[]'
X:out:nowhere A:ground:boxed | X = [A] | lst r64 / push y0 / push '[]'
X:out:nowhere | X = f(X,X) | fresh r64 / str r65 'f'/2 / push r64 / push r64 / bind r64 r65
X:out:nowhere A:out:nowhere | X = f(A,g(c),A) | fresh r65 / str r64 'f'/3 / push r65 / push #0 / push r65
X:out:hole A:out:nowhere | X = f(A) | str r65 'f'/1 / push_new r64 / fill r0 r65
X:out:hole A:ground:nowhere | X = f(A) | str r65 'f'/1 / hole r64 ground / fill r0 r65";

const READ: &str = "\
X:full:head A:out:nowhere B:out:nowhere | X = [A|B] | switch r0 var=* atm=- int=- lst=1 str=- / label 1 - a0:ground r0:flst=a0 / load r64 r0 0 / load r65 r0 1
X:ground:head A:any:local | X = f(c,A,g(c)) | deref r0 r0 / functor r0 'f'/3 - / load r64 r0 1 / deref r64 r64 / match r64 'c' - / load r64 r0 2 / unify r64 r1 / load r64 r0 3 / unify r64 #0
X:any:slot A:out:nowhere | X = f(A) | deref r65 y0 / switch r65 var=1 atm=- int=- lst=- str=2 / label 1 f1 a0:any r65:var y0:any / str r66 'f'/1 / push_new r64 / bind r65 r66 / jump 3 / label 2 f1 a0:any r65:direct y0:any / functor r65 'f'/1 - / load r64 r65 1 / label 3 f1 a0:any r64:any y0:any / move r0 y0 / builtin 'nonvar'/1
X:nonvar:head A:out:nowhere | X = f(g(A),c) | deref r0 r0 / functor r0 'f'/2 - / load r65 r0 1 / deref r65 r65 / switch r65 var=1 atm=- int=- lst=- str=2 / label 1 - a0:nonvar r0:str:'f'/2=a0 r65:var / str r66 'g'/1 / push_new r64 / bind r65 r66 / jump 3 / label 2 - a0:nonvar r0:str:'f'/2=a0 r65:direct / functor r65 'g'/1 - / load r64 r65 1 / label 3 - a0:nonvar r0:str:'f'/2=a0 r64:any / load r65 r0 2 / deref r65 r65 / switch r65 var=4 atm=5 int=- lst=- str=- / label 4 - a0:nonvar r0:nonvar=a0 r64:any r65:var / bind r65 'c' / jump 6 / label 5 - a0:nonvar r0:nonvar=a0 r64:any r65:atm / match r65 'c' - / label 6 - a0:nonvar r0:nonvar=a0 r64:any
X:any:head A:any:local | X = [A] | deref r0 r0 / switch r0 var=1 atm=- int=- lst=2 str=- / label 1 - a0:any a1:any r0:var=a0 r1:any / lst r64 / push r1 / push '[]' / bind r0 r64 / jump 6 / label 2 - a0:nonvar a1:any r0:lst=a0 r1:any / load r64 r0 0 / unify r64 r1 / load r64 r0 1 / deref r64 r64 / switch r64 var=3 atm=4 int=- lst=- str=- / label 3 - a0:nonvar a1:any r0:nonvar=a0 r1:any r64:var / bind r64 '[]' / jump 5 / label 4 - a0:nonvar a1:any r0:nonvar=a0 r1:any r64:atm / match r64 '[]' - / label 5 - a0:nonvar a1:any r0:nonvar=a0 r1:any / label 6 - a0:nonvar a1:any r0:nonvar=a0 r1:any";

#[test]
fn constants_are_moved_matched_and_filled(rt: HostRuntime) -> Result<(), Fail> {
    rows(&rt, rt.alloc(), CONSTANTS)
}

#[test]
fn variables_are_moved_unified_and_parted(rt: HostRuntime) -> Result<(), Fail> {
    rows(&rt, rt.alloc(), VARIABLES)
}

#[test]
fn barriers_and_boxes_are_listed(rt: HostRuntime) -> Result<(), Fail> {
    rows(&rt, rt.alloc(), BARRIERS)
}

#[test]
fn compounds_are_made_with_their_parts_first(rt: HostRuntime) -> Result<(), Fail> {
    rows(&rt, rt.alloc(), MADE)
}

#[test]
fn compounds_are_read_from_left_to_right(rt: HostRuntime) -> Result<(), Fail> {
    rows(&rt, rt.alloc(), READ)
}
