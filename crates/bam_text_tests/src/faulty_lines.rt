use crate::readings::expect_lines;
use std::test::Fail;

/// Lines that stand in no procedure with the arguments any, out, bar, ground, one label before and one pool entry.
const LINES: &str = "
\x20
return\x20
\x20return
returns
Return
return\t
move  r0 r1
move r0  r1
move r0 r1\x20
move r0
move
move r0 r1 r2
move r0,r1
move R0 r1
move r0 r01
move r00 r1
move r0 r1024
move r0 r18446744073709551616
move r0 r
move r0 r-1
move r0 y256
move y256 r0
move y00 r0
move 0 r0
move 'a' r0
move #0 r0
move r0 #1
move r0 #00
move r0 #
move r0 -0
move r0 00
move r0 01
move r0 -01
move r0 +1
move r0 -
move r0 --1
move r0 9223372036854775808
move r0 -9223372036854775809
move r0 99999999999999999999999
move r0 1.0
move r0 a
move r0 '
move r0 'a
move r0 'a''
move r0 'a'b
move r0 'a'''
move r0 \"a\"
move r0 '\\a'
move r0 '\\t'
move r0 '\\\"'
move r0 '\\e'
move r0 '\\'
move r0 '\\x'
move r0 '\\x\\'
move r0 '\\xa\\'
move r0 '\\x00\\'
move r0 '\\x09\\'
move r0 '\\x01\\'
move r0 '\\x1F\\'
move r0 '\\x1f'
move r0 '\\x20\\'
move r0 '\\x41\\'
move r0 '\\x7e\\'
move r0 '\\x80\\'
move r0 '\\xff\\'
move r0 '\\x7f0\\'
move r0 '\\x27\\'
move r0 '\\x5c\\'
move r0 '\\0\\'
move r0 '\t'
move r0 '\u{7f}'
move r0 '\u{1}'
deref y0 r0
deref r0
load r0 r1 256
load r0 r1 -1
load r0 r1 00
load r0 r1
load y0 r1 0
load r0 r1 r2
str r0 'f'/0
str r0 'f'/256
str r0 'f'/01
str r0 '.'/2
str r0 'f'
str r0 'f'/
str r0 f/1
str r0 'f' /1
str y0 'f'/1
lst y0
lst
lst r0 r1
push
push_new y0
push_new
pushnew r0
push_ r0
fresh y0
fresh 0
bind y0 r1
bind r0
unify y0 r0
unify r0
jump
jump *
jump 00
jump -1
jump 4294967296
jump r0
switch r0 var=* atm=* int=- lst=- str=-
switch r0 var=* atm=- int=* lst=- str=-
switch r0 var=* atm=- int=- lst=* str=-
switch r0 var=* atm=- int=- lst=- str=*
switch r0 var=* atm=- int=- lst=-
switch r0 atm=- var=* int=- lst=- str=-
switch r0 var= atm=- int=- lst=- str=-
switch r0 var * atm=- int=- lst=- str=-
switch r0 var=00 atm=- int=- lst=- str=-
switch r0 var=4294967296 atm=- int=- lst=- str=-
switch r0 var=* atm=- int=- lst=- str=-\x20
switch y0 var=* atm=- int=- lst=- str=-
match r0 r1 -
match r0 #0 -
match r0 y0 -
match y0 1 -
match r0 1
match r0 1 *
match r0 -0 -
functor r0 '.'/2 -
functor r0 'f'/0 -
functor r0 'f'/1
functor y0 'f'/1 -
fail 0
fail\x20
call
call p/4
call 'p'
call 'p'/
call 'p'/64
call 'p'/04
call 'p'/4\x20
call 'p'/4#0/4
call 'p'/4#1
call 'p'/4#1/
call 'p'/4#01/4
call 'p'/4#1/65
call 'p'/4#1/04
call 'p'/4#4294967296/4
call 'p'/4/4
exec 'p'/64
exec 'p'/4#1/65
allocate 0
allocate 257
allocate 01
allocate
allocate f1
deallocate 1
try 1025 0
try 00 0
try 0
try 0 *
try r0 0
retry
retry *
retry 00
trust 0
mark y0
mark 0
cut
cut -0
arith pow r0 r1 r2
arith add y0 r1 r2
arith add r0 r1
arith add r0 r1 r2 r3
arith r0 r1 r2
arith Add r0 r1 r2
less lte r0 r1
less r0 r1
less lt r0
less same r0 r1
eval y0 r1
eval r0
same lt r0 r1
same eq r0
same r0 r1
builtin var/1
builtin 'var'/2
builtin 'var'/01
builtin 'nl'/1
builtin '='/2
builtin '\\\\='/2
builtin '=='/2
builtin '\\\\=='/2
builtin 'is'/2
builtin '=:='/2
builtin '<'/2
builtin '>='/2
builtin 'true'/0
builtin 'p'/4
builtin 'compare'/2
raise
raise r0
raise y0
raise #1
hole r0 out
hole r0 bar
hole r0 lst
hole r0 int
hole r0
hole y0 any
hole r0 any=a1
fill y0 r0
fill r0
catch 0 0
uncatch
ball 1 - a0:any a3:any
label
label 1
label 0 - a0:any a3:any
label 2 - a0:any a3:any
label 01 - a0:any a3:any
label 1  - a0:any a3:any
label 1 f0 a0:any a3:any
label 1 f257 a0:any a3:any
label 1 f01 a0:any a3:any
label 1 1 a0:any a3:any
label 1 a0:any a3:any
label 1 -
label 1 -\x20";

/// Labels that stand there in no text.
const LABELS: &str = "label 1 - a0:any
label 1 - a3:any
label 1 - a3:any a0:any
label 1 - a0:any a0:any a3:any
label 1 - a0:any a1:any a3:any
label 1 - a0:any a2:any a3:any
label 1 - a0:any a3:any a4:any
label 1 - a0:any a3:any\x20
label 1 - a0:any  a3:any
label 1 - a0:full a3:any
label 1 - a0:direct a3:any
label 1 - a0 a3:any
label 1 - a0: a3:any
label 1 - a00:any a3:any
label 1 - a0:any=a0 a3:any
label 1 - r0:any a0:any a3:any
label 1 - a0:any a3:any r0
label 1 - a0:any a3:any r0:
label 1 - a0:any a3:any r0:out
label 1 - a0:any a3:any r0:Any
label 1 - a0:any a3:any r0:list
label 1 - a0:any a3:any r1024:any
label 1 - a0:any a3:any r00:any
label 1 - a0:any a3:any y256:any
label 1 - a0:any a3:any y00:any
label 1 - a0:any a3:any r1:any r1:any
label 1 - a0:any a3:any r1:any r0:any
label 1 - a0:any a3:any r10:any r9:any
label 1 - a0:any a3:any y1:any y1:any
label 1 - a0:any a3:any y1:any y0:any
label 1 - a0:any a3:any y0:any r0:any
label 1 - a0:any a3:any r0:any  r1:any
label 1 - a0:any a3:any r0:any\x20
label 1 - a0:any a3:any x0:any
label 1 - a0:any a3:any #0:any
label 1 - a0:any a3:any r0:str
label 1 - a0:any a3:any r0:str:
label 1 - a0:any a3:any r0:str:'f'
label 1 - a0:any a3:any r0:str:'f'/0
label 1 - a0:any a3:any r0:str:'f'/256
label 1 - a0:any a3:any r0:str:'.'/2
label 1 - a0:any a3:any r0:gstr:'.'/2
label 1 - a0:any a3:any r0:fstr:'.'/2
label 1 - a0:any a3:any r0:hstr:'f'/1
label 1 - a0:any a3:any r0:lst:'f'/1
label 1 - a0:any a3:any r0:any=
label 1 - a0:any a3:any r0:any=a
label 1 - a0:any a3:any r0:any=0
label 1 - a0:any a3:any r0:any=a00
label 1 - a0:any a3:any r0:any=a1
label 1 - a0:any a3:any r0:any=a2
label 1 - a0:any a3:any r0:any=a4
label 1 - a0:any a3:any r0:any=a63
label 1 - a0:any a3:any r0:any=a64
label 1 - a0:any a3:any r0:any=a0=a0
label 1 - a0:any a3:any r0:hole
label 1 - a0:any a3:any r0:hole:any
label 1 - a0:any a3:any r0:hole:any=a0
label 1 - a0:any a3:any r0:hole:any=a2
label 1 - a0:any a3:any r0:hole:any=a4
label 1 - a0:any a3:any r0:hole:hole:any=a1
label 1 - a0:any a3:any r0:part
label 1 - a0:any a3:any r0:part:part:any
label 1 - a0:any a3:any r0:part:any=a1
label 1 - a0:any a3:any r0:cell:any=a1
label 1 - a0:any a3:any r0:cell:out";

/// Lines that stand there in no text that begins with `bam 2` either.
const CATCHING_LINES: &str = "ball 0 - a0:any a3:any
ball 1 -
ball 1 a0:any a3:any
catch 1024 0
catch 00 0
catch 0
catch 0 *
catch 0 4294967296
catch r0 0
uncatch 0
raise
raise r1024";

#[test]
fn the_line_of_another_form_is_the_first_faulty_one(rt: HostRuntime) -> Result<(), Fail> {
    expect_lines(&rt, rt.alloc(), LINES, "1", "return", 5)
}

#[test]
fn the_label_of_another_form_is_the_first_faulty_line(rt: HostRuntime) -> Result<(), Fail> {
    expect_lines(&rt, rt.alloc(), LABELS, "1", "return", 5)
}

#[test]
fn the_line_that_does_not_catch_is_the_first_faulty_one(rt: HostRuntime) -> Result<(), Fail> {
    expect_lines(&rt, rt.alloc(), CATCHING_LINES, "2", "uncatch", 5)
}
