use crate::readings::faulty_line;
use std::test::Fail;

#[test]
fn ten_thousand_procedures_are_read(rt: HostRuntime) -> Result<(), Fail> {
    let alloc = rt.alloc();
    let mut text = String::from_str(alloc, "bam 1\n")?;
    for i in 0..10_000u32 {
        let proc = format!(in alloc;
            "proc 'p{i}'/3 full full out -> ground ground full\nswitch r0 var=* atm=0 int=- lst=1 str=-\nlabel 0 - a0:ground a1:ground r0:atm=a0 r1:full=a1 r2:hole:full=a2\nmatch r0 '[]' -\nfill r2 r1\nreturn\nlabel 1 - a0:ground a1:ground r0:flst=a0 r1:full=a1 r2:hole:full=a2\nload r64 r0 0\nload r65 r0 1\nlst r66\npush r64\nhole r67 full\nfill r2 r66\nmove r0 r65\nmove r2 r67\nexec 'p{i}'/3\nend\n"
        )?;
        text.push_str(proc.as_str())?;
    }
    assert_eq!(rt; faulty_line(&rt, alloc, text.as_str())?, 0);
    Ok(())
}

#[test]
fn a_procedure_of_twenty_thousand_lines_is_read(rt: HostRuntime) -> Result<(), Fail> {
    let alloc = rt.alloc();
    let mut text = String::from_str(alloc, "bam 1\nproc 'p'/1 full -> ground\n")?;
    for i in 0..10_000u32 {
        let lines = format!(in alloc; "move r1 r0\nlabel {i} - a0:ground r0:full=a0\n")?;
        text.push_str(lines.as_str())?;
    }
    text.push_str("return\nend\n")?;
    assert_eq!(rt; faulty_line(&rt, alloc, text.as_str())?, 0);
    Ok(())
}
