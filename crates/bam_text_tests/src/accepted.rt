use crate::readings::{expect_lines, faulty_line, text_of};
use std::test::Fail;

/// Lines of a procedure that are read and printed alike.
const LINES: &str = "label 1 - a0:any a3:any
label 1 f1 a0:nonvar a3:ground
label 1 f256 a0:ground a3:nonvar
alt 1 - a0:any a3:any
alt 1 f2 a0:any a3:any r0:full=a3 y0:any=a0 y255:ground
label 1 - a0:any a3:any r0:any r1:head r2:var r3:nonvar r4:direct r5:ground r6:gdirect r7:full
label 1 - a0:any a3:any r0:int r1:atm r2:lst r3:glst r4:flst r5:bar r1023:any
label 1 - a0:any a3:any r0:str:'f'/1 r1:gstr:'f'/255 r2:fstr:'.'/1 r3:str:'.'/3
label 1 - a0:any a3:any r1:hole:full=a1 r2:hole:any=a1
label 1 - a0:any a3:any r1:hole:str:'g'/2=a1
label 1 - a0:any a3:any r1:part:lst r2:part:any=a0 r3:cell:nonvar r4:cell:fstr:'f'/1=a3
label 1 - a0:any a3:any r1:bar=a0
move r0 r1
move r1023 y255
move y0 r0
move y255 0
move r0 -1
move r0 9223372036854775807
move r0 -9223372036854775808
move r0 'a'
move r0 #0
move r0 ''
move r0 'A b'
move r0 '\\\\'
move r0 '\\''
move r0 '\\n'
move r0 '\\x0\\'
move r0 '\\x9\\'
move r0 '\\xb\\\\xc\\\\xd\\'
move r0 '\\x1f\\'
move r0 '\\x7f\\'
move r0 '\"#-=:,()'
move r0 'é∀𝄞'
deref r0 r1
deref r0 'a'
load r0 r1 0
load r0 y1 255
load r0 5 7
str r0 'f'/1
str r0 '.'/1
str r0 '.'/255
lst r0
push r0
push 1
push #0
push_new r0
fresh r1023
bind r0 r1
bind r0 #0
unify r0 'x'
unify r0 y9
jump 0
jump 4294967295
jump -
switch r0 var=* atm=- int=- lst=- str=-
switch r1023 var=- atm=0 int=1 lst=2 str=3
switch r1 var=7 atm=0 int=4294967295 lst=2 str=3
match r0 '[]' -
match r0 -5 4
match r0 0 4
functor r0 'f'/2 -
functor r0 '.'/4 12
fail
call 'p'/4
call 'q'/0
call 'q'/63
call 'q'/63#1/64
call 'q'/0#4294967295/0
exec 'q r'/2
exec 'q'/2#7/5
return
allocate 1
allocate 256
deallocate
try 0 1
try 1024 -
retry 3
retry -
trust
mark r3
cut r3
cut y3
cut 3
arith add r0 r1 r2
arith sub r0 0 y2
arith mul r0 1 -1
arith quot r0 r1 r2
arith rem r0 r1 r2
arith mod r0 r1 r2
arith shl r0 r1 r2
arith shr r0 r1 r2
arith and r0 r1 r2
arith or r0 'a' #0
less lt r0 r1
less le 0 1
less gt r0 y1
less ge r0 r1
less eq r0 r1
less ne r0 r1
eval r0 #0
eval r0 r1
same eq r0 r1
same ne 'a' 'b'
raise 'a'
raise -7
raise #0
hole r3 full
hole r3 gdirect
hole r3 ground
hole r3 direct
hole r3 nonvar
hole r3 any
fill r3 r4
fill r3 #0
builtin 'var'/1
builtin 'nonvar'/1
builtin 'atom'/1
builtin 'integer'/1
builtin 'number'/1
builtin 'atomic'/1
builtin 'compound'/1
builtin '@<'/2
builtin '@=<'/2
builtin '@>'/2
builtin '@>='/2
builtin 'compare'/3
builtin 'functor'/3
builtin 'arg'/3
builtin '=..'/2
builtin 'copy_term'/2
builtin 'write'/1
builtin 'writeq'/1
builtin 'nl'/0
builtin 'put_char'/1";

/// Lines of texts that begin with `bam 2`.
const CATCHING_LINES: &str = "ball 1 - a0:any a3:any
ball 1 f3 a0:any a3:any r0:any y0:full
catch 0 1
catch 1023 -
catch 7 4294967295
uncatch
raise r0
raise y7
raise 'a'";

/// Whole texts, with `|` in the place of each new line.
const TEXTS: &str = "bam 1|
bam 1|entry 'p'/0|
bam 1|entry 'p'/4 ground nonvar out any|entry 'q'/0|
bam 1|entry 'p'/0|entry 'p'/1 any|entry ''/0|
bam 1|import 'q'/0 ->|
bam 1|import 'q'/8 full gdirect ground direct nonvar any out bar -> ground nonvar any ground ground ground full bar|
bam 1|import 'q'/6 out out out out out out -> full gdirect ground direct nonvar any|
bam 1|import 'q'/0 ->|import 'q'/0#1/0 ->|import 'q'/0#2/0 ->|import 'q'/0#1/1 any -> any|
bam 1|pool 'f'(1)|pool 'f'('1')|pool 'f'(1,1)|pool '.'(1,'.'(2,'[]'))|pool '.'(1)|pool 'f'(-1,'a','g'('h'(0)),'[]')|
bam 1|proc 'p'/0 ->|return|end|
bam 1|proc 'p'/0 ->|jump 0|label 0 -|alt 1 -|label 2 -|return|end|proc 'q'/0 ->|label 0 -|return|end|
bam 1|proc 'p'/0#1/2 bar any -> bar any|label 0 - a1:any|return|end|
bam 1|entry 'p'/0|import 'q'/0 ->|pool 'f'(1)|proc 'p'/0 ->|exec 'q'/0|end|
bam 1|entry 'p'/0|proc 'p'/0 ->|exec 'q'/0|end|proc 'q'/0 ->|return|end|
bam 2|proc 'p'/0 ->|uncatch|end|
bam 2|proc 'p'/0 ->|return|end|proc 'q'/0 ->|raise r0|end|
bam 1|entry 'app'/3 ground ground out|proc 'app'/3 full full out -> ground ground full|switch r0 var=* atm=0 int=- lst=1 str=-|label 0 - a0:ground a1:ground r0:atm=a0 r1:full=a1|match r0 '[]' -|move r2 r1|return|label 1 - a0:ground a1:ground r0:flst=a0 r1:full=a1|allocate 1|load r64 r0 0|move y0 r64|load r0 r0 1|call 'app'/3|lst r64|push y0|push r2|move r2 r64|deallocate|return|end|
bam 1|entry 'app'/3 ground ground out|proc 'app'/3 full full out -> ground ground full|switch r0 var=* atm=0 int=- lst=1 str=-|label 0 - a0:ground a1:ground r0:atm=a0 r1:full=a1 r2:hole:full=a2|match r0 '[]' -|fill r2 r1|return|label 1 - a0:ground a1:ground r0:flst=a0 r1:full=a1 r2:hole:full=a2|load r64 r0 0|load r65 r0 1|lst r66|push r64|hole r67 full|fill r2 r66|move r0 r65|move r2 r67|exec 'app'/3|end|";

#[test]
fn each_line_is_printed_as_it_was_read(rt: HostRuntime) -> Result<(), Fail> {
    expect_lines(&rt, rt.alloc(), LINES, "1", "return", 0)
}

#[test]
fn each_line_that_catches_is_printed_as_it_was_read(rt: HostRuntime) -> Result<(), Fail> {
    expect_lines(&rt, rt.alloc(), CATCHING_LINES, "2", "uncatch", 0)
}

#[test]
fn each_text_is_printed_as_it_was_read(rt: HostRuntime) -> Result<(), Fail> {
    let alloc = rt.alloc();
    for written in TEXTS.split('\n') {
        let text = text_of(alloc, written)?;
        assert_eq!(rt; faulty_line(&rt, alloc, text.as_str())?, 0, "{written}");
    }
    Ok(())
}
