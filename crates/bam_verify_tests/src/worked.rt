//! Whole texts.

use crate::harness::{answer, whole_answers};
use std::alloc::Global;
use std::process::Abort;
use std::test::Fail;

const WHOLE: &str = "\
bam 1 / entry 'p'/1 any / proc 'p'/1 any -> any / deref r0 r0 / switch r0 var=- atm=- int=- lst=- str=0 / label 0 - a0:nonvar r0:direct=a0 / functor r0 'f'/2 - / load r1 r0 3 / return / end | 5 index
bam 1 / entry 'p'/1 any / proc 'p'/1 any -> any / deref r0 r0 / switch r0 var=- atm=- int=- lst=- str=0 / label 0 - a0:nonvar r0:direct=a0 / functor r0 'f'/2 - / load r1 r0 2 / return / end | accepted
bam 1 / entry 'p'/1 any / proc 'p'/1 any -> any / deref r0 r0 / switch r0 var=- atm=- int=- lst=- str=0 / label 0 - a0:nonvar r0:direct=a0 / match r0 'a' - / load r1 r0 3 / return / end | 5 tag
bam 1 / entry 'p'/0 / import 'q'/0 -> / proc 'p'/0 -> / exec 'q'/0 / end | accepted
bam 2 | line 2
bam 1 / entry 'p'/0 / proc 'p'/0 -> / catch 0 0 | line 4
bam 1 / entry 'l'/1 any / proc 'l'/1 any -> any / str r1 'f'/1 / push r0 / move r0 r1 / exec 'l'/1 / end | accepted
bam 1 / entry 'app'/3 ground ground out / proc 'app'/3 full full out -> ground ground full / switch r0 var=* atm=0 int=- lst=1 str=- / label 0 - a0:ground a1:ground r0:atm=a0 r1:full=a1 r2:hole:full=a2 / match r0 '[]' - / fill r2 r1 / return / label 1 - a0:ground a1:ground r0:flst=a0 r1:full=a1 r2:hole:full=a2 / load r64 r0 0 / load r65 r0 1 / lst r66 / push r64 / hole r67 full / fill r2 r66 / move r0 r65 / move r2 r67 / exec 'app'/3 / end | accepted
bam 1 / entry 'app'/3 ground ground out / proc 'app'/3 full full out -> ground ground full / switch r0 var=* atm=0 int=- lst=1 str=- / label 0 - a0:ground a1:ground r0:atm=a0 r1:full=a1 r2:hole:full=a2 / match r0 '[]' - / return / label 1 - a0:ground a1:ground r0:flst=a0 r1:full=a1 r2:hole:full=a2 / load r64 r0 0 / load r65 r0 1 / lst r66 / push r64 / hole r67 full / fill r2 r66 / move r0 r65 / move r2 r67 / exec 'app'/3 / end | 4 hole
bam 1 / entry 'app'/3 ground ground out / proc 'app'/3 full full out -> ground ground full / switch r0 var=* atm=0 int=- lst=1 str=- / label 0 - a0:ground a1:ground r0:atm=a0 r1:full=a1 / match r0 '[]' - / move r2 r1 / return / label 1 - a0:ground a1:ground r0:flst=a0 r1:full=a1 / allocate 1 / load r64 r0 0 / move y0 r64 / load r0 r0 1 / call 'app'/3 / lst r64 / push y0 / push r2 / move r2 r64 / deallocate / return / end | 1 hole";

#[test]
fn whole_texts(rt: HostRuntime) -> Result<(), Fail> {
    whole_answers(&rt, rt.alloc(), WHOLE)
}

const APPEND: &str = "\
bam 1
entry 'app'/3 ground ground out
proc 'app'/3 full full out -> ground ground full
switch r0 var=* atm=0 int=- lst=1 str=-
label 0 - a0:ground a1:ground r0:atm=a0 r1:full=a1 r2:hole:full=a2
match r0 '[]' -
fill r2 r1
return
label 1 - a0:ground a1:ground r0:flst=a0 r1:full=a1 r2:hole:full=a2
load r64 r0 0
load r65 r0 1
lst r66
push r64
hole r67 full
fill r2 r66
move r0 r65
move r2 r67
exec 'app'/3
end
";

/// What the front of a text is answered, with so many bytes and so many new lines.
fn answer_to_front(alloc: Global, bytes: usize, lines: usize) -> Result<String, Fail> {
    Ok(match bytes {
        6 => String::from_str(alloc, "accepted")?,
        38 => String::from_str(alloc, "proc 0 line 1: entry")?,
        _ => {
            let faulty = lines.saturating_add(1);
            format!(in alloc; "line {faulty}")?
        }
    })
}

fn assert_front(rt: &impl Abort, alloc: Global, bytes: usize) -> Result<(), Fail> {
    let front = APPEND.get(..bytes).ok_or("no front")?;
    let lines = front.bytes().filter(|byte| *byte == b'\n').count();
    let wanted = answer_to_front(alloc, bytes, lines)?;
    let given = answer(alloc, front)?;
    assert_eq!(rt; given.as_str(), wanted.as_str(), "{bytes} bytes");
    Ok(())
}

#[test]
fn fronts_of_a_text(rt: HostRuntime) -> Result<(), Fail> {
    for bytes in 0..APPEND.len() {
        assert_front(&rt, rt.alloc(), bytes)?;
    }
    assert_eq!(rt; answer(rt.alloc(), APPEND)?.as_str(), "accepted");
    Ok(())
}
