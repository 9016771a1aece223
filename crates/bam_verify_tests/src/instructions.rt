//! Each instruction, with each rule on its operands that can fail it, beside the nearest text that is accepted.

use crate::harness::answers;
use std::test::Fail;

const MOVES: &str = "\
move r1 r0 / return | accepted
move r1 r2 / return | 1 unset
move r1 y0 / return | 1 frame
move y0 r0 / return | 1 frame
move y0 r1 / return | 1 frame
allocate 1 / move y0 r0 / deallocate / return | accepted
allocate 1 / move y1 r0 / deallocate / return | 2 index
allocate 1 / move y0 r1 / deallocate / return | 2 unset
allocate 1 / move y1 r1 / deallocate / return | 2 unset
allocate 1 / move r1 y0 / deallocate / return | 2 unset
allocate 1 / move r1 y1 / deallocate / return | 2 unset
allocate 1 / move y0 r0 / move r1 y0 / deallocate / return | accepted
allocate 1 / move y0 r0 / move y0 r0 / deallocate / return | 3 slot
allocate 1 / move y0 r0 / move y0 5 / deallocate / return | 3 slot
allocate 2 / move y0 r0 / move y1 y0 / deallocate / return | accepted
allocate 256 / move y255 r0 / deallocate / return | accepted
move r1 5 / move r1023 r1 / move r1 r1023 / return | accepted
move r1 -9223372036854775808 / move r2 'a' / move r3 #0 / move r4 #1 / return | accepted
mark r1 / move r2 r1 / cut r2 / return | accepted";

const DEREFS: &str = "\
deref r1 r0 / return | accepted
deref r0 r0 / return | accepted
deref r1 r2 / return | 1 unset
deref r1 y0 / return | 1 frame
deref r1 5 / return | 1 tag
deref r1 'a' / return | 1 tag
deref r1 #0 / return | 1 tag
mark r1 / deref r2 r1 / return | 2 tag
allocate 1 / move y0 r0 / deref r1 y0 / deallocate / return | accepted
allocate 1 / deref r1 y0 / deallocate / return | 2 unset
deref r1 r0 / switch r1 var=- atm=- int=- lst=- str=- | accepted
builtin 'nonvar'/1 / deref r1 r0 / match r1 5 - / return | accepted
builtin 'nonvar'/1 / match r0 5 - / return | 2 tag
eval r2 r0 / deref r1 r0 / str r3 'f'/1 / push r1 / load r4 r3 1 / deref r5 r4 / match r5 5 - / return | accepted
eval r2 r0 / deref r1 r0 / match r1 5 - / return | accepted
eval r2 r0 / match r0 5 - / return | 2 tag";

const LOADS: &str = "\
lst r1 / push r0 / push r0 / load r2 r1 0 / load r3 r1 1 / return | accepted
lst r1 / push r0 / push r0 / load r2 r1 2 / return | 4 index
load r2 r1 0 / return | 1 unset
load r2 y0 0 / return | 1 frame
load r2 r0 0 / return | 1 tag
load r2 5 0 / return | 1 tag
load r2 #1 0 / return | 1 tag
load r2 #0 1 / return | 1 tag
move r1 #1 / load r2 r1 0 / return | accepted
move r1 #1 / load r2 r1 255 / return | 2 index
move r1 #0 / load r2 r1 1 / return | accepted
move r1 #0 / load r2 r1 0 / return | 2 index
move r1 #0 / load r2 r1 2 / return | 2 index
move r1 'a' / load r2 r1 0 / return | 2 tag
allocate 1 / move y0 #1 / load r1 y0 0 / deallocate / return | 3 tag
allocate 1 / load r1 y0 0 / deallocate / return | 2 unset
deref r1 r0 / load r2 r1 0 / return | 2 tag
move r1 #1 / load r2 r1 0 / match r2 1 - / return | accepted
move r1 #0 / load r2 r1 1 / match r2 1 - / return | accepted
lst r1 / push r0 / push r0 / load r2 r1 0 / match r2 1 - / return | 5 tag
lst r1 / push r0 / push r0 / load r2 r1 0 / deref r3 r2 / match r3 1 - / return | 6 tag
eval r9 r0 / lst r1 / push r0 / push r0 / load r2 r1 0 / deref r3 r2 / match r3 1 - / return | accepted
eval r9 r0 / lst r1 / push r0 / push r0 / load r2 r1 0 / match r2 1 - / return | 6 tag
str r1 'f'/255 / push r0 / return | 3 open";

const PUSHES: &str = "\
str r1 'f'/2 / push r0 / push 5 / return | accepted
str r1 'f'/2 / push r0 / return | 3 open
str r1 'f'/1 / push r0 / push r0 / return | 3 open
lst r1 / push #0 / push 'a' / return | accepted
lst r1 / push r0 / return | 3 open
push r0 / return | 1 open
push r1 / return | 1 unset
push y0 / return | 1 frame
mark r1 / push r1 / return | 2 tag
str r1 'f'/1 / push r2 / return | 2 unset
str r0 'f'/1 / push r0 / return | 2 unset
str r1 'f'/1 / push y0 / return | 2 frame
mark r2 / str r1 'f'/1 / push r2 / return | 3 tag
lst r1 / push r0 / push_new r2 / return | accepted
lst r1 / push r0 / push_new r1 / return | 3 open
lst r1 / push r0 / push_new r0 / push r0 / return | 4 open
push_new r1 / return | 1 open
lst r1 / push_new r2 / push r2 / bind r2 5 / return | accepted
str r1 'f'/1 / push 5 / load r2 r1 1 / match r2 5 - / return | accepted
str r1 'f'/1 / push_new r2 / load r3 r1 1 / match r3 5 - / return | 4 tag
str r1 'f'/1 / push r0 / load r3 r1 1 / match r3 5 - / return | 4 tag
lst r1 / push 1 / push 2 / load r2 r1 1 / match r2 1 - / return | accepted
lst r1 / push 1 / push r0 / load r2 r1 0 / match r2 1 - / return | 5 tag
eval r9 r0 / str r1 'f'/1 / push r0 / load r2 r1 1 / deref r3 r2 / match r3 5 - / return | accepted
eval r9 r0 / str r1 'f'/1 / push r0 / load r2 r1 1 / match r2 5 - / return | 5 tag
lst r1 / push 1 / push '[]' / lst r2 / push 1 / push r1 / load r3 r2 1 / match r3 '[]' - / return | accepted";

const BINDS: &str = "\
fresh r1 / bind r1 r0 / return | accepted
fresh r1 / return | accepted
bind r1 r0 / return | 1 unset
fresh r1 / bind r1 r2 / return | 2 unset
fresh r1 / bind r1 y0 / return | 2 frame
bind r0 5 / return | 1 tag
deref r1 r0 / bind r1 5 / return | 2 tag
move r1 5 / bind r1 5 / return | 2 tag
mark r2 / fresh r1 / bind r1 r2 / return | 3 tag
fresh r1 / bind r1 5 / bind r1 5 / return | 3 tag
fresh r1 / fresh r2 / bind r1 5 / bind r2 5 / return | 4 tag
fresh r1 / fresh r2 / bind r1 r2 / return | accepted
fresh r1 / bind r1 5 / deref r2 r1 / match r2 5 - / return | accepted
fresh r1 / bind r1 r0 / deref r2 r1 / match r2 5 - / return | 4 tag
fresh r1 / bind r1 5 / match r1 5 - / return | 3 tag
fresh r1 / move r2 r1 / bind r1 5 / deref r3 r2 / match r3 5 - / return | accepted
builtin 'nonvar'/1 / fresh r1 / bind r1 r0 / deref r2 r1 / match r2 5 - / return | accepted
deref r1 r0 / fresh r2 / bind r2 5 / switch r1 var=- atm=- int=- lst=- str=- | 4 tag";

const UNIFIES: &str = "\
unify r0 5 / return | accepted
unify r0 r0 / return | accepted
unify r1 5 / return | 1 unset
unify r0 r1 / return | 1 unset
unify r0 y0 / return | 1 frame
mark r1 / unify r0 r1 / return | 2 tag
mark r1 / unify r1 r0 / return | 2 tag
unify r0 #0 / deref r1 r0 / match r1 5 - / return | accepted
unify r0 5 / match r0 5 - / return | 2 tag
fresh r1 / unify r0 r1 / deref r2 r0 / match r2 5 - / return | 4 tag
move r1 5 / unify r1 r0 / deref r2 r0 / match r2 5 - / return | accepted
deref r1 r0 / unify r0 1 / switch r1 var=* atm=- int=- lst=- str=- | 3 tag
deref r1 r0 / unify r0 1 / switch r1 var=- atm=- int=- lst=- str=- | 3 tag
deref r1 r0 / unify r0 1 / deref r1 r1 / switch r1 var=* atm=- int=- lst=- str=- | accepted
deref r1 r0 / builtin 'nonvar'/1 / deref r1 r0 / unify r0 1 / switch r1 var=* atm=- int=- lst=- str=- | accepted
fresh r1 / unify r0 5 / bind r1 5 / return | 3 tag
fresh r1 / same eq r0 5 / bind r1 5 / return | accepted";

const SWITCHES: &str = "\
switch r1 var=- atm=- int=- lst=- str=- | 1 unset
switch r0 var=- atm=- int=- lst=- str=- | 1 tag
mark r1 / switch r1 var=- atm=- int=- lst=- str=- | 2 tag
deref r0 r0 / switch r0 var=* atm=- int=- lst=- str=- | 2 tag
fresh r0 / switch r0 var=* atm=- int=- lst=- str=- | 2 tag
fresh r0 / switch r0 var=- atm=- int=- lst=- str=- | accepted
deref r0 r0 / switch r0 var=- atm=- int=- lst=- str=- | accepted
move r1 5 / switch r1 var=* atm=- int=- lst=- str=- | accepted
deref r0 r0 / switch r0 var=- atm=- int=- lst=- str=- / return | 3 flow
deref r0 r0 / switch r0 var=0 atm=- int=- lst=- str=- / alt 0 - a0:any / return | 2 flow
deref r0 r0 / switch r0 var=- atm=0 int=- lst=- str=- / alt 0 - a0:any / return | 2 flow
deref r0 r0 / switch r0 var=- atm=- int=0 lst=- str=- / alt 0 - a0:any / return | 2 flow
deref r0 r0 / switch r0 var=- atm=- int=- lst=0 str=- / alt 0 - a0:any / return | 2 flow
deref r0 r0 / switch r0 var=- atm=- int=- lst=- str=0 / alt 0 - a0:any / return | 2 flow
deref r0 r0 / switch r0 var=1 atm=- int=- lst=- str=- / label 0 - a0:any / return | 2 flow
deref r0 r0 / switch r0 var=0 atm=- int=- lst=- str=- / label 0 - a0:any r0:var=a0 / bind r0 1 / return | accepted
deref r0 r0 / switch r0 var=0 atm=- int=- lst=- str=- / label 0 - a0:nonvar r0:any=a0 / return | 2 state
deref r0 r0 / switch r0 var=- atm=0 int=- lst=- str=- / label 0 - a0:ground r0:atm=a0 / return | accepted
deref r0 r0 / switch r0 var=- atm=0 int=- lst=- str=- / label 0 - a0:ground r0:int=a0 / return | 2 state
deref r0 r0 / switch r0 var=- atm=- int=0 lst=- str=- / label 0 - a0:ground r0:int=a0 / return | accepted
deref r0 r0 / switch r0 var=- atm=- int=0 lst=- str=- / label 0 - a0:ground r0:atm=a0 / return | 2 state
deref r0 r0 / switch r0 var=- atm=- int=- lst=0 str=- / label 0 - a0:nonvar r0:lst=a0 / return | accepted
deref r0 r0 / switch r0 var=- atm=- int=- lst=0 str=- / label 0 - a0:nonvar r0:glst=a0 / return | 2 state
deref r0 r0 / switch r0 var=- atm=- int=- lst=0 str=- / label 0 - a0:ground r0:lst=a0 / return | 2 state
deref r0 r0 / switch r0 var=- atm=- int=- lst=- str=0 / label 0 - a0:nonvar r0:direct=a0 / return | accepted
deref r0 r0 / switch r0 var=- atm=- int=- lst=- str=0 / label 0 - a0:nonvar r0:gdirect=a0 / return | 2 state
deref r0 r0 / switch r0 var=0 atm=0 int=0 lst=0 str=0 / label 0 - a0:any r0:head=a0 / return | accepted
deref r1 r0 / switch r1 var=- atm=0 int=- lst=- str=- / label 0 - a0:ground r0:ground=a0 r1:atm=a0 / return | accepted
deref r1 r0 / switch r1 var=- atm=- int=- lst=0 str=- / label 0 - a0:nonvar r0:nonvar=a0 r1:lst=a0 / return | accepted
deref r1 r0 / switch r1 var=- atm=- int=- lst=0 str=- / label 0 - a0:nonvar r0:ground=a0 r1:lst=a0 / return | 2 state
eval r9 r0 / deref r0 r0 / switch r0 var=- atm=- int=- lst=0 str=- / label 0 - a0:ground r0:glst=a0 / return | accepted
eval r9 r0 / deref r0 r0 / switch r0 var=- atm=- int=- lst=0 str=- / label 0 - a0:ground r0:flst=a0 / return | 3 state
eval r9 r0 / deref r0 r0 / switch r0 var=0 atm=- int=- lst=- str=- / label 0 - a0:ground r0:var=a0 / return | 3 state
eval r9 r0 / deref r0 r0 / switch r0 var=0 atm=- int=- lst=- str=- / label 0 - a0:ground r0:ground=a0 / return | accepted
move r1 #1 / switch r1 var=* atm=- int=- lst=0 str=- / label 0 - a0:any r1:flst / return | accepted
move r1 #1 / switch r1 var=* atm=- int=- lst=- str=0 / label 0 - a0:any r1:flst / return | accepted
move r1 5 / switch r1 var=* atm=- int=- lst=0 str=- / label 0 - a0:any r1:flst / return | accepted
fresh r1 / switch r1 var=- atm=- int=- lst=- str=0 / label 0 - a0:any r1:direct / return | accepted
fresh r1 / switch r1 var=- atm=- int=- lst=- str=0 / label 0 - a0:any r1:full / return | 2 state";

const TESTS: &str = "\
match r0 1 - / return | 1 tag
deref r0 r0 / match r0 1 - / return | 2 tag
match r1 1 - / return | 1 unset
mark r1 / match r1 1 - / return | 2 tag
move r1 5 / match r1 'a' - / return | accepted
move r1 5 / match r1 5 0 / return / label 0 - a0:any r1:int / return | accepted
move r1 5 / match r1 5 0 / return / label 0 - a0:any r1:atm / return | 2 state
move r1 5 / match r1 5 0 / return / label 0 - a0:ground / return | 2 state
move r1 5 / match r1 5 0 / return / alt 0 - a0:any / return | 2 flow
move r1 5 / match r1 5 1 / return / label 0 - a0:any / return | 2 flow
label 0 - a0:any / move r1 5 / match r1 5 0 / return | 3 flow
builtin 'nonvar'/1 / deref r1 r0 / match r1 5 - / arith add r2 r1 1 / return | accepted
builtin 'nonvar'/1 / deref r1 r0 / match r1 'a' - / arith add r2 r1 1 / return | 4 tag
builtin 'nonvar'/1 / deref r1 r0 / match r1 5 - / deref r2 r0 / arith add r2 r2 1 / return | 5 tag
builtin 'nonvar'/1 / deref r1 r0 / match r1 5 - / label 0 - a0:ground r1:int=a0 / return | accepted
builtin 'nonvar'/1 / deref r1 r0 / match r1 5 0 / return / label 0 - a0:ground / return | 3 state
functor r0 'f'/1 - / return | 1 tag
functor r1 'f'/1 - / return | 1 unset
mark r1 / functor r1 'f'/1 - / return | 2 tag
move r1 #0 / functor r1 'f'/1 - / load r2 r1 1 / match r2 5 - / return | accepted
move r1 5 / functor r1 'f'/1 0 / return / label 0 - a0:any r1:int / return | accepted
move r1 5 / functor r1 'f'/1 0 / return / label 0 - a0:ground / return | 2 state
move r1 5 / functor r1 'f'/1 0 / return / alt 0 - a0:any / return | 2 flow
builtin 'nonvar'/1 / deref r1 r0 / functor r1 'f'/2 - / load r2 r1 2 / return | accepted
builtin 'nonvar'/1 / deref r1 r0 / functor r1 'f'/2 - / load r2 r1 3 / return | 4 index
builtin 'nonvar'/1 / deref r1 r0 / functor r1 'f'/2 - / load r2 r1 2 / match r2 5 - / return | 5 tag
builtin 'nonvar'/1 / deref r1 r0 / functor r1 'f'/2 - / label 0 - a0:nonvar r1:str:'f'/2=a0 / return | accepted
builtin 'nonvar'/1 / deref r1 r0 / functor r1 'f'/2 - / label 0 - a0:nonvar r1:gstr:'f'/2=a0 / return | 4 state
eval r9 r0 / deref r1 r0 / functor r1 'f'/2 - / label 0 - a0:ground r1:gstr:'f'/2=a0 / return | accepted
eval r9 r0 / deref r1 r0 / functor r1 'f'/2 - / label 0 - a0:ground r1:fstr:'f'/2=a0 / return | 4 state";

const ENDS: &str = "\
return | accepted
fail | accepted
jump - | accepted
raise 5 | accepted
raise 'a' | accepted
raise #0 | accepted
exec 'plain'/0 | accepted
fail / return | 2 flow
return / return | 2 flow
jump - / return | 2 flow
raise 5 / return | 2 flow
exec 'plain'/0 / return | 2 flow
move r1 r0 | 1 flow
label 0 - a0:any | 1 flow
fail / label 0 - a0:any | 2 flow
fail / alt 0 - a0:any | 2 flow
alt 0 - a0:any / return | 1 flow
fail / alt 0 - a0:any / return | accepted
retry - / return | 1 flow
trust / return | 1 flow
fail / label 0 - a0:any / trust / return | 3 flow
fail / label 0 - a0:any / retry - / return | 3 flow
fail / alt 0 - a0:any / move r0 5 / trust / return | 4 flow
fail / alt 0 - a0:any / move r0 5 / retry 1 / return / alt 1 - a0:any / return | 4 flow
fail / alt 0 - a0:any / trust / return | accepted
fail / alt 0 - a0:any / trust / trust / return | 4 flow
allocate 1 / return | 2 frame
allocate 1 / deallocate / return | accepted
allocate 1 / allocate 1 / deallocate / return | 2 frame
deallocate / return | 1 frame
allocate 1 / deallocate / deallocate / return | 3 frame
allocate 1 / exec 'plain'/0 | 2 frame
allocate 1 / fail | accepted
allocate 1 / jump - | accepted
allocate 1 / raise 5 | accepted
allocate 1 / move y0 r0 / deallocate / allocate 1 / move y0 r1 / deallocate / return | 5 unset
allocate 1 / move y0 r0 / deallocate / allocate 1 / move y0 r0 / deallocate / return | accepted
jump 0 / label 0 - a0:any / return | accepted
jump 0 / label 0 - a0:ground / return | 1 state
jump 1 / label 0 - a0:any / return | 1 flow
jump 0 / alt 0 - a0:any / return | 1 flow
label 0 - a0:any / jump 0 | 2 flow";

const NUMBERS: &str = "\
mark r1 / cut r1 / return | accepted
cut r0 / return | 1 tag
cut r1 / return | 1 unset
cut y0 / return | 1 frame
cut 5 / return | 1 tag
cut #0 / return | 1 tag
allocate 1 / mark r1 / move y0 r1 / cut y0 / deallocate / return | accepted
arith add r1 1 2 / return | accepted
arith sub r1 r0 2 / return | 1 tag
arith mul r1 1 r0 / return | 1 tag
arith quot r1 r2 1 / return | 1 unset
arith rem r1 1 r2 / return | 1 unset
arith mod r1 1 y0 / return | 1 frame
arith shl r1 y0 1 / return | 1 frame
arith shr r1 'a' 2 / return | 1 tag
arith and r1 2 #0 / return | 1 tag
arith or r1 1 2 / arith mul r2 r1 r1 / return | accepted
arith add r1 1 2 / match r1 3 - / return | accepted
less lt 1 2 / return | accepted
less le r0 1 / return | 1 tag
less gt 1 r0 / return | 1 tag
less ge 1 r2 / return | 1 unset
less eq r2 1 / return | 1 unset
less ne y0 1 / return | 1 frame
less lt 1 'a' / return | 1 tag
arith add r1 1 2 / less lt r1 r1 / return | accepted
eval r1 r0 / arith add r2 r1 1 / return | accepted
eval r1 r2 / return | 1 unset
eval r1 y0 / return | 1 frame
mark r1 / eval r2 r1 / return | 2 tag
eval r1 5 / eval r2 #0 / return | accepted
eval r0 r0 / label 0 - a0:ground r0:int / return | accepted
eval r0 r0 / label 0 - a0:ground r0:int=a0 / return | 2 state
same eq r0 5 / return | accepted
same ne r0 r0 / return | accepted
same ne r0 r1 / return | 1 unset
same eq r1 r0 / return | 1 unset
same eq y0 5 / return | 1 frame
mark r1 / same eq r0 r1 / return | 2 tag
mark r1 / same ne r1 5 / return | 2 tag
same eq r0 5 / label 0 - a0:ground / return | 2 state";

/// Built-ins on three arguments of any kind, and then what is known of them.
const BUILTINS: &str = "\
builtin 'var'/1 / label 0 - a0:any a1:any a2:any / return | accepted
builtin 'var'/1 / label 0 - a0:nonvar a1:any a2:any / return | 2 state
builtin 'nonvar'/1 / label 0 - a0:nonvar a1:any a2:any / return | accepted
builtin 'nonvar'/1 / label 0 - a0:ground a1:any a2:any / return | 2 state
builtin 'nonvar'/1 / label 0 - a0:any a1:nonvar a2:any / return | 2 state
builtin 'atom'/1 / label 0 - a0:ground a1:any a2:any / return | accepted
builtin 'atom'/1 / label 0 - a0:any a1:nonvar a2:any / return | 2 state
builtin 'integer'/1 / label 0 - a0:ground a1:any a2:any / return | accepted
builtin 'number'/1 / label 0 - a0:ground a1:any a2:any / return | accepted
builtin 'atomic'/1 / label 0 - a0:ground a1:any a2:any / return | accepted
builtin 'compound'/1 / label 0 - a0:nonvar a1:any a2:any / return | accepted
builtin 'compound'/1 / label 0 - a0:ground a1:any a2:any / return | 2 state
builtin '@<'/2 / label 0 - a0:any a1:any a2:any / return | accepted
builtin '@<'/2 / label 0 - a0:nonvar a1:any a2:any / return | 2 state
builtin '@=<'/2 / label 0 - a0:any a1:nonvar a2:any / return | 2 state
builtin '@>'/2 / label 0 - a0:nonvar a1:any a2:any / return | 2 state
builtin '@>='/2 / label 0 - a0:any a1:nonvar a2:any / return | 2 state
builtin 'compare'/3 / label 0 - a0:ground a1:any a2:any / return | accepted
builtin 'compare'/3 / label 0 - a0:ground a1:nonvar a2:any / return | 2 state
builtin 'compare'/3 / label 0 - a0:ground a1:any a2:nonvar / return | 2 state
builtin 'functor'/3 / label 0 - a0:nonvar a1:ground a2:ground / return | accepted
builtin 'functor'/3 / label 0 - a0:ground a1:any a2:any / return | 2 state
builtin 'arg'/3 / label 0 - a0:ground a1:nonvar a2:any / return | accepted
builtin 'arg'/3 / label 0 - a0:ground a1:ground a2:any / return | 2 state
builtin 'arg'/3 / label 0 - a0:ground a1:nonvar a2:nonvar / return | 2 state
builtin '=..'/2 / label 0 - a0:nonvar a1:nonvar a2:any / return | accepted
builtin '=..'/2 / label 0 - a0:ground a1:nonvar a2:any / return | 2 state
builtin '=..'/2 / label 0 - a0:nonvar a1:ground a2:any / return | 2 state
builtin 'copy_term'/2 / label 0 - a0:any a1:any a2:any / return | accepted
builtin 'copy_term'/2 / label 0 - a0:nonvar a1:any a2:any / return | 2 state
builtin 'copy_term'/2 / label 0 - a0:any a1:nonvar a2:any / return | 2 state
builtin 'write'/1 / label 0 - a0:nonvar a1:any a2:any / return | 2 state
builtin 'writeq'/1 / label 0 - a0:nonvar a1:any a2:any / return | 2 state
builtin 'write'/1 / builtin 'writeq'/1 / builtin 'nl'/0 / return | accepted
builtin 'put_char'/1 / label 0 - a0:ground a1:any a2:any / return | accepted
deref r1 r1 / builtin 'nl'/0 / switch r1 var=- atm=- int=- lst=- str=- | 3 tag
mark r2 / builtin 'compare'/3 / return | 2 tag
mark r1 / builtin '=..'/2 / return | 2 tag
mark r0 / builtin 'var'/1 / return | 2 tag
mark r2 / builtin '=..'/2 / return | accepted
mark r0 / builtin 'nl'/0 / return | accepted";

const BUILTINS_OF_ONE: &str = "\
builtin 'compare'/3 / return | 1 unset
builtin '@<'/2 / return | 1 unset
builtin 'var'/1 / return | accepted
mark r0 / builtin '@<'/2 / return | 2 unset";

const RAISES: &str = "\
raise r0 | accepted
raise r1 | 1 unset
raise y0 | 1 frame
mark r1 / raise r1 | 2 tag
raise r0 / return | 2 flow
allocate 1 / move y0 r0 / raise y0 | accepted
allocate 1 / raise y0 | 2 unset";

const OF_ANY: &str = "'p'/1 any -> any";

#[test]
fn moves_and_references(rt: HostRuntime) -> Result<(), Fail> {
    answers(&rt, rt.alloc(), "1", OF_ANY, MOVES)?;
    answers(&rt, rt.alloc(), "1", OF_ANY, DEREFS)?;
    answers(&rt, rt.alloc(), "1", OF_ANY, LOADS)
}

#[test]
fn structures(rt: HostRuntime) -> Result<(), Fail> {
    answers(&rt, rt.alloc(), "1", OF_ANY, PUSHES)
}

#[test]
fn bindings(rt: HostRuntime) -> Result<(), Fail> {
    answers(&rt, rt.alloc(), "1", OF_ANY, BINDS)?;
    answers(&rt, rt.alloc(), "1", OF_ANY, UNIFIES)
}

#[test]
fn switches_and_tests(rt: HostRuntime) -> Result<(), Fail> {
    answers(&rt, rt.alloc(), "1", OF_ANY, SWITCHES)?;
    answers(&rt, rt.alloc(), "1", OF_ANY, TESTS)
}

#[test]
fn ends_and_frames(rt: HostRuntime) -> Result<(), Fail> {
    answers(&rt, rt.alloc(), "1", OF_ANY, ENDS)
}

#[test]
fn numbers_and_comparisons(rt: HostRuntime) -> Result<(), Fail> {
    answers(&rt, rt.alloc(), "1", OF_ANY, NUMBERS)
}

#[test]
fn built_ins(rt: HostRuntime) -> Result<(), Fail> {
    let of_three = "'p'/3 any any any -> any any any";
    answers(&rt, rt.alloc(), "1", of_three, BUILTINS)?;
    answers(&rt, rt.alloc(), "1", OF_ANY, BUILTINS_OF_ONE)
}

#[test]
fn raised_terms(rt: HostRuntime) -> Result<(), Fail> {
    answers(&rt, rt.alloc(), "2", OF_ANY, RAISES)
}
