use crate::harness::runs;
use std::test::Fail;

/// The text of `app/3` with an out argument, whose result travels through a hole.
const APP: &str =
    "bam 1 / entry 'app'/3 ground ground out / proc 'app'/3 full full out -> ground ground full / switch r0 var=* atm=0 int=- lst=1 str=- / label 0 - a0:ground a1:ground r0:atm=a0 r1:full=a1 r2:hole:full=a2 / match r0 '[]' - / fill r2 r1 / return / label 1 - a0:ground a1:ground r0:flst=a0 r1:full=a1 r2:hole:full=a2 / load r64 r0 0 / load r65 r0 1 / lst r66 / push r64 / hole r67 full / fill r2 r66 / move r0 r65 / move r2 r67 / exec 'app'/3 / end";

#[test]
fn lists_are_appended_through_holes(rt: HostRuntime) -> Result<(), Fail> {
    let alloc = rt.alloc();
    let row = format!(in alloc;
        "{APP} | app([1,2],[3],X) | 33 11 0 0 0 | X = [1,2,3] / ; / no / % code 13 steps 33 choices 0"
    )?;
    runs(&rt, alloc, row.as_str())
}
