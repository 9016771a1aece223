use crate::notation::read_kernel;
use facts_text::facts_text;
use flow_analysis::analyse;
use std::fmt::Write;
use std::test::Fail;

/// How many predicates of a chain call the next one.
const CALLS: u32 = 2000;

#[test]
fn a_chain_has_one_fact_throughout(rt: HostRuntime) -> Result<(), Fail> {
    let alloc = rt.alloc();
    let mut program = String::from_str(alloc, ":- entry(p0(ground)).\n")?;
    let mut wanted = String::new(alloc);
    for number in 0..CALLS {
        let next = number.saturating_add(1);
        writeln!(program, "p{number}(A) :- p{next}(A).")?;
        writeln!(wanted, "p{number}/1 call full success ground")?;
    }
    let last = CALLS;
    writeln!(program, "p{last}(A) :- A = a.")?;
    writeln!(wanted, "p{last}/1 call full success ground")?;
    let written = read_kernel(alloc, program.as_str())?;
    let facts = analyse(alloc, &written.kernel, &written.entries)?;
    let found = String::from_utf8(facts_text(alloc, &facts, &written.atoms)?)?;
    let agree = found.as_str() == wanted.as_str();
    assert!(rt; agree);
    Ok(())
}
