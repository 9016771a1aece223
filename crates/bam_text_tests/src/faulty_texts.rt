use crate::readings::{faulty_line, text_of};
use aq_term::atoms::Atoms;
use bam_text::fault::TextFault;
use bam_text::read::read;
use std::test::Fail;

/// Texts, each after its first faulty line and a space, with `|` in the place of each new line.
const TEXTS: &str = "6 bam 1|proc 'p'/0 ->|return|end|proc 'q'/0 ->|proc 'r'/0 ->|
1 
1 |
1 bam 1
1 bam 2
1 bam
1 bam 3|
1 bam 0|
1 bam 01|
1 bam  1|
1 bam 1 |
1 \x20bam 1|
1 BAM 1|
1 bam 1\r|
1 return|
2 bam 1||
2 bam 1|bam 1|
2 bam 2|
3 bam 2|entry 'p'/0|
5 bam 2|proc 'p'/0 ->|return|end|
5 bam 2|proc 'p'/0 ->|raise 'a'|end|
4 bam 2|proc 'p'/0 ->|raise r0|
3 bam 1|proc 'p'/0 ->|catch 0 0|end|
3 bam 1|proc 'p'/0 ->|ball 0 -|end|
3 bam 1|proc 'p'/0 ->|uncatch|end|
3 bam 1|proc 'p'/0 ->|raise r0|end|
3 bam 1|proc 'p'/0 ->|raise y0|end|
4 bam 1|entry 'p'/0|proc 'p'/0 ->|catch 0 0|
2 bam 1|foo|
2 bam 1|return|
2 bam 1|end|
2 bam 1|entry|
2 bam 1|entry 'p'|
2 bam 1|entry 'p'/1|
2 bam 1|entry 'p'/1 |
2 bam 1|entry 'p'/1 full|
2 bam 1|entry 'p'/1 any any|
2 bam 1|entry 'p'/0 any|
2 bam 1|entry 'p'/0 |
2 bam 1|entry  'p'/0|
2 bam 1|entry 'p'/64|
2 bam 1|entry 'p'/0#1/0|
2 bam 1|entry p/0|
3 bam 1|entry 'p'/0|entry 'p'/0|
3 bam 1|entry 'p'/1 any|entry 'p'/1 out|
4 bam 1|entry 'p'/0|entry 'q'/0|entry 'p'/0|
2 bam 1|entry 'p'/0
3 bam 1|import 'q'/0 ->|entry 'p'/0|
3 bam 1|pool 'f'(1)|entry 'p'/0|
3 bam 1|pool 'f'(1)|import 'q'/0 ->|
5 bam 1|proc 'p'/0 ->|return|end|entry 'p'/0|
5 bam 1|proc 'p'/0 ->|return|end|import 'q'/0 ->|
5 bam 1|proc 'p'/0 ->|return|end|pool 'f'(1)|
5 bam 1|proc 'p'/0 ->|return|end|return|
5 bam 1|proc 'p'/0 ->|return|end|end|
2 bam 1|import 'q'/0|
2 bam 1|import 'q'/0 -> |
2 bam 1|import 'q'/0  ->|
2 bam 1|import 'q'/0->|
2 bam 1|import 'q'/1 any ->|
2 bam 1|import 'q'/1 -> any|
2 bam 1|import 'q'/1 any -> any any|
2 bam 1|import 'q'/1 any any -> any|
2 bam 1|import 'q'/1 int -> any|
2 bam 1|import 'q'/1 any -> full|
2 bam 1|import 'q'/1 full -> gdirect|
2 bam 1|import 'q'/1 any -> direct|
2 bam 1|import 'q'/1 any -> bar|
2 bam 1|import 'q'/1 any -> out|
2 bam 1|import 'q'/1 out -> bar|
2 bam 1|import 'q'/1 bar -> any|
3 bam 1|import 'q'/0 ->|import 'q'/0 ->|
3 bam 1|import 'q'/0 ->|proc 'q'/0 ->|return|end|
3 bam 1|import 'q'/1#1/0 ->|import 'q'/1#1/0 ->|
2 bam 1|pool|
2 bam 1|pool 'a'|
2 bam 1|pool 1|
2 bam 1|pool 'f'()|
2 bam 1|pool 'f'(1|
2 bam 1|pool 'f'(1))|
2 bam 1|pool 'f'(1,)|
2 bam 1|pool 'f'(,1)|
2 bam 1|pool 'f'(1, 2)|
2 bam 1|pool 'f'(X)|
2 bam 1|pool 1(2)|
2 bam 1|pool 'f'(-0)|
3 bam 1|pool 'f'(1)|pool 'f'(1)|
3 bam 1|proc 'p'/0 ->|end|
4 bam 1|proc 'p'/0 ->|return|
3 bam 1|proc 'p'/0 ->|return
4 bam 1|proc 'p'/0 ->|return|end
5 bam 1|proc 'p'/0 ->|return|end|proc 'p'/0 ->|";

#[test]
fn the_first_faulty_line_is_found(rt: HostRuntime) -> Result<(), Fail> {
    let alloc = rt.alloc();
    for row in TEXTS.split('\n') {
        let (line, written) = row.split_once(' ').unwrap_or(("", ""));
        let text = text_of(alloc, written)?;
        let found = format!(in alloc; "{line}", line = faulty_line(&rt, alloc, text.as_str())?)?;
        assert_eq!(rt; found.as_str(), line, "{row}");
    }
    Ok(())
}

/// A pool of one compound with as many arguments.
#[test]
fn a_compound_has_at_most_255_arguments(rt: HostRuntime) -> Result<(), Fail> {
    let alloc = rt.alloc();
    for (count, line) in [(1u32, 0), (255, 0), (256, 2), (300, 2)] {
        let mut text = String::from_str(alloc, "bam 1\npool 'f'(0")?;
        for _ in 1..count {
            text.push_str(",0")?;
        }
        text.push_str(")\n")?;
        assert_eq!(rt;
            faulty_line(&rt, alloc, text.as_str())?,
            line,
            "{count} arguments"
        );
    }
    Ok(())
}

/// A pool of one term of a depth.
#[test]
fn a_pool_entry_has_a_depth_of_at_most_4096(rt: HostRuntime) -> Result<(), Fail> {
    let alloc = rt.alloc();
    for (depth, line) in [(2u32, 0), (4096, 0), (4097, 2), (5000, 2)] {
        let mut text = String::from_str(alloc, "bam 1\npool ")?;
        for _ in 1..depth {
            text.push_str("'f'(")?;
        }
        text.push('0')?;
        for _ in 1..depth {
            text.push(')')?;
        }
        text.push('\n')?;
        assert_eq!(rt;
            faulty_line(&rt, alloc, text.as_str())?,
            line,
            "depth {depth}"
        );
    }
    Ok(())
}

#[test]
fn an_atom_is_utf_8(rt: HostRuntime) -> Result<(), Fail> {
    let alloc = rt.alloc();
    for middle in [b"\xff".as_slice(), b"\xc3", b"\xed\xa0\x80", b"\xc0\x80"] {
        let mut text = Vec::from_slice(alloc, b"bam 1\nentry '")?;
        text.extend_from_slice(middle)?;
        text.extend_from_slice(b"'/0\n")?;
        let mut atoms = Atoms::new(alloc)?;
        match read(alloc, text.as_slice(), &mut atoms) {
            Err(fault) => assert_eq!(rt; fault, TextFault::Line(2)),
            Ok(_) => assert!(rt; false),
        }
    }
    Ok(())
}
