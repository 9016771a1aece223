//! Accepted procedures stay accepted when they are cleaned and when their registers are allocated.

use crate::harness::keeps_accepted;
use std::test::Fail;

const ANY: &str = "\
move r1 r0 / return
allocate 1 / move y0 r0 / deallocate / return
allocate 1 / move y0 r0 / move r1 y0 / deallocate / return
allocate 2 / move y0 r0 / move y1 y0 / deallocate / return
allocate 256 / move y255 r0 / deallocate / return
move r1 5 / move r1023 r1 / move r1 r1023 / return
move r1 -9223372036854775808 / move r2 'a' / move r3 #0 / move r4 #1 / return
mark r1 / move r2 r1 / cut r2 / return
deref r1 r0 / return
deref r0 r0 / return
allocate 1 / move y0 r0 / deref r1 y0 / deallocate / return
deref r1 r0 / switch r1 var=- atm=- int=- lst=- str=-
builtin 'nonvar'/1 / deref r1 r0 / match r1 5 - / return
eval r2 r0 / deref r1 r0 / str r3 'f'/1 / push r1 / load r4 r3 1 / deref r95 r4 / match r95 5 - / return
eval r2 r0 / deref r1 r0 / match r1 5 - / return
lst r1 / push r0 / push r0 / load r2 r1 0 / load r3 r1 1 / return
move r1 #1 / load r2 r1 0 / return
move r1 #0 / load r2 r1 1 / return
move r1 #1 / load r2 r1 0 / match r2 1 - / return
move r1 #0 / load r2 r1 1 / match r2 1 - / return
eval r87 r0 / lst r1 / push r0 / push r0 / load r2 r1 0 / deref r3 r2 / match r3 1 - / return
str r1 'f'/2 / push r0 / push 5 / return
lst r1 / push #0 / push 'a' / return
lst r1 / push r0 / push_new r2 / return
lst r1 / push_new r2 / push r2 / bind r2 5 / return
str r1 'f'/1 / push 5 / load r2 r1 1 / match r2 5 - / return
lst r1 / push 1 / push 2 / load r2 r1 1 / match r2 1 - / return
eval r87 r0 / str r1 'f'/1 / push r0 / load r2 r1 1 / deref r3 r2 / match r3 5 - / return
lst r1 / push 1 / push '[]' / lst r2 / push 1 / push r1 / load r3 r2 1 / match r3 '[]' - / return
fresh r1 / bind r1 r0 / return
fresh r1 / return
fresh r1 / fresh r2 / bind r1 r2 / return
fresh r1 / bind r1 5 / deref r2 r1 / match r2 5 - / return
fresh r1 / move r2 r1 / bind r1 5 / deref r3 r2 / match r3 5 - / return
builtin 'nonvar'/1 / fresh r1 / bind r1 r0 / deref r2 r1 / match r2 5 - / return
unify r0 5 / return
unify r0 r0 / return
unify r0 #0 / deref r1 r0 / match r1 5 - / return
move r1 5 / unify r1 r0 / deref r2 r0 / match r2 5 - / return
deref r1 r0 / unify r0 1 / deref r1 r1 / switch r1 var=* atm=- int=- lst=- str=-
deref r1 r0 / builtin 'nonvar'/1 / deref r1 r0 / unify r0 1 / switch r1 var=* atm=- int=- lst=- str=-
fresh r1 / same eq r0 5 / bind r1 5 / return
fresh r0 / switch r0 var=- atm=- int=- lst=- str=-
deref r0 r0 / switch r0 var=- atm=- int=- lst=- str=-
move r1 5 / switch r1 var=* atm=- int=- lst=- str=-
deref r0 r0 / switch r0 var=0 atm=- int=- lst=- str=- / label 0 - a0:any r0:var=a0 / bind r0 1 / return
deref r0 r0 / switch r0 var=- atm=0 int=- lst=- str=- / label 0 - a0:ground r0:atm=a0 / return
deref r0 r0 / switch r0 var=- atm=- int=0 lst=- str=- / label 0 - a0:ground r0:int=a0 / return
deref r0 r0 / switch r0 var=- atm=- int=- lst=0 str=- / label 0 - a0:nonvar r0:lst=a0 / return
deref r0 r0 / switch r0 var=- atm=- int=- lst=- str=0 / label 0 - a0:nonvar r0:direct=a0 / return
deref r0 r0 / switch r0 var=0 atm=0 int=0 lst=0 str=0 / label 0 - a0:any r0:head=a0 / return
deref r1 r0 / switch r1 var=- atm=0 int=- lst=- str=- / label 0 - a0:ground r0:ground=a0 r1:atm=a0 / return
deref r1 r0 / switch r1 var=- atm=- int=- lst=0 str=- / label 0 - a0:nonvar r0:nonvar=a0 r1:lst=a0 / return
eval r87 r0 / deref r0 r0 / switch r0 var=- atm=- int=- lst=0 str=- / label 0 - a0:ground r0:glst=a0 / return
eval r87 r0 / deref r0 r0 / switch r0 var=0 atm=- int=- lst=- str=- / label 0 - a0:ground r0:ground=a0 / return
move r1 #1 / switch r1 var=* atm=- int=- lst=0 str=- / label 0 - a0:any r1:flst / return
move r1 #1 / switch r1 var=* atm=- int=- lst=- str=0 / label 0 - a0:any r1:flst / return
move r1 5 / switch r1 var=* atm=- int=- lst=0 str=- / label 0 - a0:any r1:flst / return
fresh r1 / switch r1 var=- atm=- int=- lst=- str=0 / label 0 - a0:any r1:direct / return
move r1 5 / match r1 'a' - / return
move r1 5 / match r1 5 0 / return / label 0 - a0:any r1:int / return
builtin 'nonvar'/1 / deref r1 r0 / match r1 5 - / arith add r2 r1 1 / return
builtin 'nonvar'/1 / deref r1 r0 / match r1 5 - / label 0 - a0:ground r1:int=a0 / return
move r1 #0 / functor r1 'f'/1 - / load r2 r1 1 / match r2 5 - / return
move r1 5 / functor r1 'f'/1 0 / return / label 0 - a0:any r1:int / return
builtin 'nonvar'/1 / deref r1 r0 / functor r1 'f'/2 - / load r2 r1 2 / return
builtin 'nonvar'/1 / deref r1 r0 / functor r1 'f'/2 - / label 0 - a0:nonvar r1:str:'f'/2=a0 / return
eval r87 r0 / deref r1 r0 / functor r1 'f'/2 - / label 0 - a0:ground r1:gstr:'f'/2=a0 / return
return
fail
jump -
raise 5
raise 'a'
raise #0
exec 'plain'/0
fail / alt 0 - a0:any / return
fail / alt 0 - a0:any / trust / return
allocate 1 / deallocate / return
allocate 1 / fail
allocate 1 / jump -
allocate 1 / raise 5
allocate 1 / move y0 r0 / deallocate / allocate 1 / move y0 r0 / deallocate / return
jump 0 / label 0 - a0:any / return
mark r1 / cut r1 / return
allocate 1 / mark r1 / move y0 r1 / cut y0 / deallocate / return
arith add r1 1 2 / return
arith or r1 1 2 / arith mul r2 r1 r1 / return
arith add r1 1 2 / match r1 3 - / return
less lt 1 2 / return
arith add r1 1 2 / less lt r1 r1 / return
eval r1 r0 / arith add r2 r1 1 / return
eval r1 5 / eval r2 #0 / return
eval r0 r0 / label 0 - a0:ground r0:int / return
same eq r0 5 / return
same ne r0 r0 / return
builtin 'var'/1 / return
lst r95 / push 1 / push 2 / label 0 - a0:any r95:flst / return
allocate 1 / call 'plain'/0 / deallocate / return
allocate 1 / call 'any'/1 / deallocate / return
allocate 1 / move r0 5 / call 'direct'/1 / deallocate / return
allocate 1 / move r0 #0 / call 'full'/1 / deallocate / return
allocate 1 / mark r0 / call 'cuts'/1 / deallocate / return
allocate 1 / hole r0 any / call 'makes'/1 / deallocate / return
allocate 1 / hole r1 any / call 'takes'/2 / deallocate / return
allocate 1 / move y0 r0 / call 'any'/1 / move r0 y0 / call 'any'/1 / deallocate / return
allocate 1 / move y0 r0 / call 'learns'/1 / deref r1 y0 / match r1 5 - / deallocate / return
allocate 1 / move y0 r0 / call 'tests'/1 / deref r1 y0 / match r1 5 - / deallocate / return
allocate 1 / move y0 r0 / call 'tests'/1 / label 0 f1 a0:nonvar y0:nonvar=a0 / deallocate / return
allocate 1 / call 'learns'/1 / label 0 f1 a0:ground / deallocate / return
allocate 1 / fresh r1 / move y0 r1 / move r1 y0 / bind r1 5 / deallocate / return
exec 'any'/1
hole r0 any / exec 'makes'/1
mark r0 / exec 'cuts'/1
hole r1 any / fill r1 5 / return
hole r1 any / fill r1 r0 / return
builtin 'nonvar'/1 / hole r1 direct / fill r1 r0 / return
builtin 'nonvar'/1 / hole r1 nonvar / fill r1 r0 / return
eval r87 r0 / hole r1 gdirect / fill r1 r0 / return
eval r87 r0 / hole r1 ground / fill r1 r0 / return
fresh r2 / hole r1 any / fill r1 r2 / return
hole r1 any / hole r2 any / fill r1 5 / fill r2 5 / return
hole r1 any / move r2 r1 / fill r2 5 / return
hole r1 any / move r0 r1 / exec 'makes'/1
hole r0 any / hole r1 any / exec 'makes_two'/2
hole r0 full / exec 'makes_full'/1
hole r0 nonvar / exec 'makes_full'/1
hole r0 nonvar / exec 'makes_direct'/1
hole r0 direct / exec 'makes_direct'/1
allocate 1 / hole r0 any / hole r1 any / call 'makes_two'/2 / deallocate / return
allocate 1 / hole r0 any / fill r0 5 / call 'plain'/0 / deallocate / return
allocate 1 / hole r0 full / move y0 r0 / call 'makes_full'/1 / deref r1 y0 / match r1 5 - / deallocate / return
allocate 1 / hole r0 direct / move y0 r0 / call 'makes_full'/1 / deref r1 y0 / match r1 5 - / deallocate / return
allocate 1 / hole r0 full / move y0 r0 / call 'makes_full'/1 / label 0 f1 a0:any y0:cell:full / deallocate / return
allocate 1 / hole r0 full / move y0 r0 / call 'makes_full'/1 / label 0 f1 a0:any y0:ground / deallocate / return
allocate 1 / hole r0 any / move y0 r0 / call 'makes'/1 / eval r1 y0 / label 0 f1 a0:any y0:cell:any / deallocate / return
allocate 1 / hole r0 any / move y0 r0 / call 'makes'/1 / eval r1 y0 / deref r1 y0 / match r1 5 - / deallocate / return
allocate 1 / hole r0 any / move y0 r0 / call 'makes'/1 / label 0 f1 a0:any y0:any / eval r1 y0 / label 1 f1 a0:any y0:ground / deallocate / return
allocate 2 / hole r0 any / move y0 r0 / move y1 r0 / call 'makes'/1 / eval r1 y0 / deref r1 y1 / match r1 5 - / deallocate / return
allocate 1 / hole r0 any / move y0 r0 / deallocate / exec 'makes'/1
lst r1 / push r0 / hole r2 any / fill r2 5 / return
lst r1 / hole r2 any / hole r3 any / fill r2 5 / fill r3 5 / return
lst r1 / push 1 / hole r2 full / fill r2 5 / load r3 r1 0 / match r3 1 - / return
lst r1 / push 1 / hole r2 full / fill r2 5 / label 0 - a0:any r1:flst / return
lst r1 / push 1 / hole r2 gdirect / fill r2 5 / label 0 - a0:any r1:glst / return
lst r1 / push 1 / hole r2 nonvar / fill r2 5 / label 0 - a0:any r1:lst / return
lst r1 / push 1 / hole r2 full / move r3 r1 / fill r2 5 / load r4 r3 0 / return
lst r1 / push 1 / hole r2 full / move r0 r1 / fill r2 5 / exec 'full'/1
lst r1 / push 1 / hole r2 full / str r3 'f'/1 / push r1 / fill r2 5 / label 0 - a0:any r3:fstr:'f'/1 / return
lst r1 / push 1 / hole r2 full / hole r3 any / fill r3 r1 / fill r2 5 / return
lst r1 / push 1 / hole r2 any / hole r3 direct / fill r3 r1 / fill r2 5 / return
allocate 1 / lst r1 / push 1 / hole r0 full / move y0 r1 / call 'makes_full'/1 / label 0 f1 a0:any y0:flst / deallocate / return
fail / label 0 - a0:any r1:part:flst / move r2 r1 / hole r3 any / fill r3 5 / load r4 r2 0 / return
fail / label 0 - a0:any r1:cell:flst / deref r2 r1 / load r3 r2 0 / return
fail / label 0 - a0:any r1:cell:flst=a0 / label 1 - a0:ground / return
hole r87 any / move r1 r0 / fill r87 5 / return
hole r87 any / str r1 'f'/1 / push r0 / fill r87 5 / return
hole r87 any / lst r1 / push r0 / push_new r2 / fill r87 5 / return
hole r87 any / fresh r1 / fill r87 r1 / return
hole r87 any / hole r1 any / fill r1 5 / fill r87 5 / return
allocate 1 / hole r87 any / deallocate / fill r87 5 / return";

const THREE: &str = "\
builtin 'var'/1 / label 0 - a0:any a1:any a2:any / return
builtin 'nonvar'/1 / label 0 - a0:nonvar a1:any a2:any / return
builtin 'atom'/1 / label 0 - a0:ground a1:any a2:any / return
builtin 'integer'/1 / label 0 - a0:ground a1:any a2:any / return
builtin 'number'/1 / label 0 - a0:ground a1:any a2:any / return
builtin 'atomic'/1 / label 0 - a0:ground a1:any a2:any / return
builtin 'compound'/1 / label 0 - a0:nonvar a1:any a2:any / return
builtin '@<'/2 / label 0 - a0:any a1:any a2:any / return
builtin 'compare'/3 / label 0 - a0:ground a1:any a2:any / return
builtin 'functor'/3 / label 0 - a0:nonvar a1:ground a2:ground / return
builtin 'arg'/3 / label 0 - a0:ground a1:nonvar a2:any / return
builtin '=..'/2 / label 0 - a0:nonvar a1:nonvar a2:any / return
builtin 'copy_term'/2 / label 0 - a0:any a1:any a2:any / return
builtin 'write'/1 / builtin 'writeq'/1 / builtin 'nl'/0 / return
builtin 'put_char'/1 / label 0 - a0:ground a1:any a2:any / return
mark r2 / builtin '=..'/2 / return
mark r0 / builtin 'nl'/0 / return";

const CATCHERS: &str = "\
raise r0
allocate 1 / move y0 r0 / raise y0
catch 1 0 / uncatch / return / ball 0 - a0:any / return
catch 0 0 / uncatch / return / ball 0 - a0:any / unify r0 5 / return
catch 1 0 / uncatch / return / ball 0 - a0:any r0:any=a0 / unify r0 r1 / return
catch 1 0 / uncatch / catch 1 0 / uncatch / return / ball 0 - a0:any / return
catch 1 0 / uncatch / catch 0 1 / uncatch / return / ball 0 - a0:any / return / ball 1 - a0:any / return
return / ball 0 - a0:any / return
return / ball 0 - a0:any r0:any=a0 / return
return / ball 0 f2 a0:any y1:any / deallocate / return
unify r0 5 / catch 1 0 / uncatch / return / ball 0 - a0:ground / return
allocate 1 / move y0 r0 / deallocate / catch 1 0 / uncatch / return / ball 0 - a0:any / return
catch 1 0 / move r1 r0 / uncatch / return / ball 0 - a0:any / return
catch 1 0 / allocate 1 / uncatch / deallocate / return / ball 0 - a0:any / return
catch 1 0 / allocate 1 / call 'any'/1 / uncatch / deallocate / return / ball 0 - a0:any / return
mark r0 / allocate 1 / call 'cuts'/1 / deallocate / catch 1 0 / uncatch / return / ball 0 - a0:any / return";

const LABELS: &str = "\
label 0 - a0:any a1:any / return
label 0 - a0:any a1:any r0:any=a0 r1:any=a1 / return
label 0 - a0:any a1:any r0:any / return
allocate 1 / label 0 f1 a0:any a1:any / deallocate / return
allocate 1 / move y0 r0 / label 0 f1 a0:any a1:any y0:any=a0 / deallocate / return
allocate 1 / move y0 r0 / label 0 f1 a0:any a1:any y0:any / deallocate / return
allocate 2 / move y0 r0 / move y1 r1 / label 0 f2 a0:any a1:any y0:any y1:any=a1 / deallocate / return
allocate 1 / move y0 #0 / label 0 f1 a0:any a1:any y0:ground / deallocate / return
label 0 - a0:any a1:any r1:any / move r2 r1 / return
fail / label 0 - a0:any a1:any r91:str:'f'/3 / load r89 r91 3 / return
fail / label 0 f4 a0:any a1:any y3:any / move r0 y3 / deallocate / return
fail / label 0 - a0:ground a1:any r95:any=a0 / deref r95 r95 / match r95 1 - / return
fail / label 0 - a0:any a1:any r93:any=a0 r95:atm=a0 / deref r93 r93 / match r93 1 - / return
fail / label 0 - a0:any a1:any r93:any=a0 r95:any=a0 / unify r95 1 / deref r93 r93 / match r93 1 - / return
fail / label 0 - a0:any a1:any r0:any=a0 / unify r0 1 / label 1 - a0:ground a1:any / return
fail / label 0 - a0:any a1:any r0:var=a0 / bind r0 5 / return
fail / label 0 - a0:nonvar a1:any r0:head=a0 / match r0 5 - / return
fail / label 0 - a0:any a1:any r0:nonvar=a0 / label 1 - a0:nonvar a1:any / return
move r95 r0 / unify r95 1 / label 0 - a0:ground a1:any r0:ground=a0 r95:ground=a0 / return
move r95 r0 / move r0 5 / label 0 - a0:any a1:any r95:any=a0 / return
move r95 r0 / move r0 5 / label 0 - a0:any a1:any r0:int / return
jump 1 / label 0 - a0:any a1:any / return / label 1 - a0:any a1:any / return
label 0 - a0:any a1:any / label 1 - a0:any a1:any / return
label 0 - a0:any a1:any r0:any / label 1 - a0:any a1:any r0:any / return
fail / alt 0 f3 a0:any a1:any y0:any / deallocate / return
try 2 0 / return / alt 0 - a0:any a1:any r0:any=a0 r1:any=a1 / trust / return
try 0 0 / return / alt 0 - a0:any a1:any / trust / return
try 1024 0 / return / alt 0 - a0:any a1:any / trust / return
unify r0 1 / try 2 0 / return / alt 0 - a0:ground a1:any r0:ground=a0 / trust / return
try 2 0 / return / alt 0 - a0:any a1:any r0:any=a0 / retry 1 / return / alt 1 - a0:any a1:any r0:any=a0 / trust / return
try 2 0 / return / alt 0 - a0:any a1:any / trust / return / alt 1 - a0:any a1:any / return
try 2 0 / return / alt 0 - a0:any a1:any / return
try 1 0 / try 1 1 / return / alt 0 - a0:any a1:any r0:any=a0 / trust / return / alt 1 - a0:any a1:any / trust / return
try 2 0 / return / alt 0 - a0:any a1:any r0:any / trust / mark r1 / cut r1 / return";

const RESULTS: &str = "\
eval r2 r0 / builtin '=..'/2 / return
eval r2 r0 / unify r1 5 / return
builtin '=..'/2 / exec 'learns'/1
eval r2 r0 / move r0 r1 / exec 'tests'/1
eval r2 r0 / move r0 r1 / exec 'learns'/1
move r2 r0 / unify r2 5 / builtin '=..'/2 / return
fail
raise 5
jump -";

const BARRIERS: &str = "\
cut r0 / return
exec 'cuts'/1
return
label 0 - r0:bar / cut r0 / return
try 1 0 / return / alt 0 - r0:bar / trust / cut r0 / return";

const CATCHERS_OF_A_RESULT: &str = "\
fill r0 5 / catch 1 0 / uncatch / return / ball 0 - / return
fill r0 5 / catch 1 0 / uncatch / return / ball 0 - / unify r1 5 / return
fail / ball 0 - r0:hole:any=a0 / fill r0 5 / return";

const HOLES: &str = "\
fill r1 5 / return
fill r1 #0 / return
move r2 r1 / fill r2 5 / return
move r1 5 / fail
fail
raise 5
jump -
eval r0 r0 / fill r1 r0 / return
lst r2 / push 1 / push 2 / fill r1 r2 / return
fresh r2 / bind r2 5 / fill r1 5 / return
allocate 1 / move y0 r1 / move r2 y0 / fill r2 5 / move y0 r0 / deallocate / return
fill r1 5 / exec 'plain'/0
move r0 r1 / exec 'makes_full'/1
fill r1 5 / hole r1 any / exec 'takes'/2
label 0 - a0:any r1:hole:full=a1 / fill r1 5 / return
move r0 r1 / label 0 - a0:any r0:hole:full=a1 r1:hole:full=a1 / fill r0 5 / return
fill r1 5 / label 0 - a0:any / return
jump 0 / label 0 - a0:any r1:hole:full=a1 / fill r1 5 / return
move r2 5 / match r2 5 0 / fail / label 0 - a0:any r1:hole:full=a1 / fill r1 5 / return
deref r2 r0 / switch r2 var=- atm=- int=- lst=0 str=- / label 0 - a0:any r1:hole:full=a1 / fill r1 5 / return
try 2 0 / fail / alt 0 - a0:any r1:hole:full=a1 / trust / fill r1 5 / return
try 2 0 / fail / alt 0 - a0:any r1:hole:full=a1 / retry 1 / fail / alt 1 - a0:any r1:hole:full=a1 / trust / fill r1 5 / return
fill r1 5 / try 2 0 / return / alt 0 - a0:any / trust / return
allocate 1 / move y0 r1 / label 0 f1 a0:any y0:hole:full=a1 / move r1 y0 / fill r1 5 / deallocate / return
fail / label 0 - a0:any / return
fail / label 0 - a0:any r1:hole:int=a1 / fill r1 5 / return";

const TWO_HOLES: &str = "\
fill r0 5 / fill r1 'a' / return
exec 'makes_two'/2
fill r1 5 / exec 'makes'/1
fill r1 5 / hole r1 any / exec 'makes_two'/2
move r95 r0 / move r0 r1 / move r1 r95 / exec 'makes_two'/2
allocate 1 / move y0 r1 / call 'makes'/1 / move r0 y0 / deallocate / exec 'makes'/1
allocate 1 / move y0 r1 / call 'makes'/1 / move r0 y0 / call 'makes'/1 / deallocate / return
allocate 1 / move y0 r0 / fill r1 5 / call 'makes'/1 / deref r1 y0 / deallocate / return
label 0 - r0:hole:any=a0 r1:hole:any=a1 / fill r0 5 / fill r1 5 / return
fill r0 5 / label 0 - r1:hole:any=a1 / fill r1 5 / return";

#[test]
fn arguments_of_any_kind(rt: HostRuntime) -> Result<(), Fail> {
    keeps_accepted(&rt, rt.alloc(), "1", "'p'/1 any -> any", ANY)
}

#[test]
fn three_arguments(rt: HostRuntime) -> Result<(), Fail> {
    keeps_accepted(
        &rt,
        rt.alloc(),
        "1",
        "'p'/3 any any any -> any any any",
        THREE,
    )
}

#[test]
fn catchers(rt: HostRuntime) -> Result<(), Fail> {
    keeps_accepted(&rt, rt.alloc(), "2", "'p'/1 any -> any", CATCHERS)
}

#[test]
fn labels_and_choices(rt: HostRuntime) -> Result<(), Fail> {
    keeps_accepted(&rt, rt.alloc(), "1", "'p'/2 any any -> any any", LABELS)
}

#[test]
fn what_is_said_of_arguments(rt: HostRuntime) -> Result<(), Fail> {
    keeps_accepted(
        &rt,
        rt.alloc(),
        "1",
        "'p'/2 any any -> ground nonvar",
        RESULTS,
    )
}

#[test]
fn barriers(rt: HostRuntime) -> Result<(), Fail> {
    keeps_accepted(&rt, rt.alloc(), "1", "'p'/1 bar -> bar", BARRIERS)
}

#[test]
fn catchers_of_a_result(rt: HostRuntime) -> Result<(), Fail> {
    keeps_accepted(
        &rt,
        rt.alloc(),
        "2",
        "'p'/1 out -> any",
        CATCHERS_OF_A_RESULT,
    )
}

#[test]
fn own_holes(rt: HostRuntime) -> Result<(), Fail> {
    keeps_accepted(&rt, rt.alloc(), "1", "'p'/2 any out -> any full", HOLES)
}

#[test]
fn two_own_holes(rt: HostRuntime) -> Result<(), Fail> {
    keeps_accepted(&rt, rt.alloc(), "1", "'p'/2 out out -> any any", TWO_HOLES)
}
