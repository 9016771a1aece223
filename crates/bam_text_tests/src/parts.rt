use crate::readings::text_of;
use aq_term::atoms::Atoms;
use bam_text::print::print;
use part_link::parts::read_parts;
use std::alloc::Global;
use std::test::Fail;

const FIRST: &str = "bam 1\nentry 'p'/0\nimport 'q'/0 ->\nproc 'p'/0 ->\nexec 'q'/0\nend\n";

const SECOND: &str = "bam 1\nproc 'q'/0 ->\nreturn\nend\n";

const CATCHING: &str = "bam 2\nproc 'r'/0 ->\nuncatch\nend\n";

#[test]
fn each_part_is_read_by_itself(rt: HostRuntime) -> Result<(), Fail> {
    let alloc = rt.alloc();
    let parts = [FIRST, SECOND, CATCHING, "bam 1\n", SECOND];
    let mut text = String::new(alloc);
    for part in parts {
        text.push_str(part)?;
    }
    let mut atoms = Atoms::new(alloc)?;
    match read_parts(alloc, text.as_bytes(), &mut atoms) {
        Ok(codes) => {
            assert_eq!(rt; codes.len(), parts.len());
            for (code, part) in codes.as_slice().iter().zip(parts.iter()) {
                let printed = print(alloc, code, &atoms)?;
                assert_eq!(rt; printed.as_slice(), part.as_bytes(), "{part}");
            }
        }
        Err(_) => assert!(rt; false),
    }
    Ok(())
}

/// Texts, each after its first faulty part, that part's first faulty line and a space, with `|` in the place of each new line.
const FAULTY: &str = "1 1 
1 1 bam 1
1 1 bam 3|
1 1 |bam 1|
1 2 bam 1|foo|bam 1|
2 2 bam 1|entry 'p'/0|import 'q'/0 ->|proc 'p'/0 ->|exec 'q'/0|end|bam 1|return|end|
3 2 bam 1|bam 1|bam 1|foo|
1 4 bam 1|proc 'p'/0 ->|return|bam 1|
1 5 bam 1|proc 'p'/0 ->|return|end|bam 1
2 2 bam 1|bam 2|bam 1|
1 2 bam 1|bam 2
1 2 bam 1|bam 10|
1 2 bam 1| bam 1|";

#[test]
fn the_first_faulty_part_is_found(rt: HostRuntime) -> Result<(), Fail> {
    let alloc = rt.alloc();
    for row in FAULTY.split('\n') {
        let (part, rest) = row.split_once(' ').unwrap_or(("", ""));
        let (line, written) = rest.split_once(' ').unwrap_or(("", ""));
        let text = text_of(alloc, written)?;
        let found = first_fault(alloc, text.as_str())?;
        let expected = format!(in alloc; "part {part} line {line}")?;
        assert_eq!(rt; found.as_str(), expected.as_str(), "{row}");
    }
    Ok(())
}

/// The fault of a text in parts, as it is shown, or `read` where there is none.
fn first_fault(alloc: Global, text: &str) -> Result<String, Fail> {
    let mut atoms = Atoms::new(alloc)?;
    match read_parts(alloc, text.as_bytes(), &mut atoms) {
        Ok(_) => Ok(String::from_str(alloc, "read")?),
        Err(fault) => Ok(format!(in alloc; "{fault}")?),
    }
}
