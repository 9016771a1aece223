//! Rules that make room for one another.

use crate::harness::{assert_cleaned, cleans};
use std::test::Fail;

const TOGETHER: &str = "\
jump 1 / label 0 - a0:any a1:any r0:any=a0 r1:any=a1 / unify r0 1 / return / label 1 - a0:any a1:any r0:any=a0 r1:any=a1 / return | label 0 - a0:any a1:any r0:any=a0 r1:any=a1 / return
jump 1 / label 0 - a0:any a1:any / jump 1 / label 1 - a0:any a1:any / return | label 0 - a0:any a1:any / return
label 0 - a0:any a1:any r0:any=a0 / move r0 r0 / label 1 - a0:any a1:any / return | label 0 - a0:any a1:any / return
label 0 - a0:any a1:any r0:any=a0 / move r0 r0 / jump 1 / label 1 - a0:any a1:any / return | label 0 - a0:any a1:any / return
move r5 5 / match r5 6 0 / jump 1 / label 0 - a0:any a1:any r5:int / move r5 r5 / jump 1 / label 1 - a0:any a1:any / return | move r5 5 / match r5 6 0 / label 0 - a0:any a1:any / return
move r5 5 / match r5 6 0 / jump 1 / label 0 - a0:any a1:any / jump 1 / label 1 - a0:any a1:any / jump 2 / label 2 - a0:any a1:any / return | move r5 5 / match r5 6 0 / label 0 - a0:any a1:any / return
move r5 5 / match r5 6 0 / jump 1 / label 0 - a0:any a1:any r0:any=a0 r1:any=a1 / jump 2 / label 1 - a0:any a1:any r0:any=a0 r1:any=a1 / move r0 r0 / jump 3 / label 2 - a0:any a1:any r0:any=a0 r1:any=a1 / unify r1 1 / return / label 3 - a0:any a1:any r0:any=a0 r1:any=a1 / label 4 - a0:any a1:any r0:any=a0 r1:any=a1 / return | move r5 5 / match r5 6 0 / jump 1 / label 0 - a0:any a1:any r0:any=a0 r1:any=a1 / unify r1 1 / return / label 1 - a0:any a1:any r0:any=a0 r1:any=a1 / return
jump 2 / label 0 - a0:any a1:any r5:int / match r5 6 1 / return / label 1 - a0:any a1:any / return / label 2 - a0:any a1:any / jump 3 / label 3 - a0:any a1:any / return | label 0 - a0:any a1:any / return
try 2 2 / jump 1 / label 0 - a0:any a1:any / return / label 1 - a0:any a1:any / return / alt 2 - a0:any a1:any / retry 3 / jump 4 / alt 3 - a0:any a1:any / trust / jump 4 / label 4 - a0:any a1:any / return | try 2 1 / label 0 - a0:any a1:any / return / alt 1 - a0:any a1:any / retry 2 / jump 3 / alt 2 - a0:any a1:any / trust / label 3 - a0:any a1:any / return
deref r5 r0 / switch r5 var=0 atm=1 int=2 lst=- str=- / label 0 - a0:any a1:any / jump 3 / label 1 - a0:any a1:any / jump 3 / label 2 - a0:any a1:any / jump 3 / label 3 - a0:any a1:any / return | deref r5 r0 / switch r5 var=0 atm=0 int=0 lst=- str=- / label 0 - a0:any a1:any / return";

#[test]
fn rules_together(rt: HostRuntime) -> Result<(), Fail> {
    cleans(&rt, rt.alloc(), "1", "'p'/2 any any -> any any", TOGETHER)
}

const LINKED: &str = "\
bam 1
entry 'app'/3 ground ground out
import 'any'/1 any -> any
pool 'f'(1)
proc 'app'/3 full full out -> ground ground full
switch r0 var=* atm=0 int=- lst=2 str=-
label 0 - a0:ground a1:ground r0:atm=a0 r1:full=a1 r2:hole:full=a2
match r0 '[]' -
jump 1
label 1 - a0:ground a1:ground r0:full=a0 r1:full=a1 r2:hole:full=a2
match r0 '[]' -
fill r2 r1
return
label 2 - a0:ground a1:ground r0:full=a0 r1:full=a1 r2:hole:full=a2
switch r0 var=* atm=- int=- lst=3 str=-
label 3 - a0:ground a1:ground r0:flst=a0 r1:full=a1 r2:hole:full=a2
load r64 r0 0
load r65 r0 1
lst r66
push r64
hole r64 full
fill r2 r66
move r0 r65
move r1 r1
move r2 r64
exec 'app'/3
end
proc 'twice'/1 any -> any
jump 0
label 0 - a0:any r0:any=a0
unify r0 #0
exec 'any'/1
end
";

const LINKED_CLEANED: &str = "\
bam 1
entry 'app'/3 ground ground out
import 'any'/1 any -> any
pool 'f'(1)
proc 'app'/3 full full out -> ground ground full
switch r0 var=* atm=0 int=- lst=2 str=-
label 0 - a0:ground a1:ground r0:atm=a0 r1:full=a1 r2:hole:full=a2
match r0 '[]' -
label 1 - a0:ground a1:ground r0:full=a0 r1:full=a1 r2:hole:full=a2
match r0 '[]' -
fill r2 r1
return
label 2 - a0:ground a1:ground r0:full=a0 r1:full=a1 r2:hole:full=a2
switch r0 var=* atm=- int=- lst=3 str=-
label 3 - a0:ground a1:ground r0:flst=a0 r1:full=a1 r2:hole:full=a2
load r64 r0 0
load r65 r0 1
lst r66
push r64
hole r64 full
fill r2 r66
move r0 r65
move r2 r64
exec 'app'/3
end
proc 'twice'/1 any -> any
label 0 - a0:any r0:any=a0
unify r0 #0
exec 'any'/1
end
";

#[test]
fn each_procedure_alone(rt: HostRuntime) -> Result<(), Fail> {
    assert_cleaned(&rt, rt.alloc(), LINKED, LINKED_CLEANED, "two procedures")
}
