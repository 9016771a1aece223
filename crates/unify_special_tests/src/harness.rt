use crate::given::Given;
use crate::scene::{Bench, Made};
use aq_term::atoms::Atoms;
use bam_code::code::Code;
use bam_text::print::print;
use bam_verify::reject::Reject;
use bam_verify::verify::first_reject;
use std::alloc::Global;
use std::process::Abort;
use std::test::Fail;
use type_lattice::fact::Fact;

/// That the procedure of a goal is accepted, and that the facts behind the goal are those of the analysis.
pub fn accepts(
    rt: &impl Abort,
    alloc: Global,
    bench: &mut Bench,
    given: &[Given],
    text: &str,
) -> Result<(), Fail> {
    let goal = bench.goal(given, text)?;
    let made = bench.procedure(&goal, given)?;
    check(rt, alloc, &made, &bench.atoms, text)
}

fn check(
    rt: &impl Abort,
    alloc: Global,
    made: &Made,
    atoms: &Atoms,
    text: &str,
) -> Result<(), Fail> {
    assert!(rt;
        made.facts.as_slice() == made.wanted.as_slice(),
        "facts behind {text}"
    );
    if let Some(reject) = first_reject(alloc, &made.code)? {
        let shown = shown(alloc, &made.code, atoms, reject)?;
        assert_eq!(rt; shown.as_str(), "", "{text}");
    }
    Ok(())
}

fn shown(alloc: Global, code: &Code, atoms: &Atoms, reject: Reject) -> Result<String, Fail> {
    let text = String::from_utf8(print(alloc, code, atoms)?)?;
    let word = reject.rule.word();
    let line = reject.line;
    Ok(format!(in alloc; "{}line {line}: {word}\n", text.as_str())?)
}

/// The variables of a text like `X:any:head A:out:nowhere`.
pub fn all_given(alloc: Global, text: &str) -> Result<Vec<Given>, Fail> {
    let mut given = Vec::new(alloc);
    for word in text.split_whitespace() {
        given.push(Given::of(word)?)?;
    }
    Ok(given)
}

/// The lines of the goal, with ` / ` between them.
fn lines_of(alloc: Global, made: &Made, atoms: &Atoms) -> Result<String, Fail> {
    let text = String::from_utf8(print(alloc, &made.code, atoms)?)?;
    let mut lines = String::new(alloc);
    let mut number = 0usize;
    let mut is_inside = false;
    for line in text.as_str().lines() {
        if is_inside && made.first <= number && number < made.end {
            lines.push_str(if lines.is_empty() { "" } else { " / " })?;
            lines.push_str(line)?;
        }
        if is_inside {
            number = number.saturating_add(1);
        }
        if line.starts_with("proc ") {
            is_inside = true;
        }
    }
    Ok(lines)
}

/// A table of goals with their variables and their lines, all of which are accepted. A row is `VARIABLES | GOAL | LINES`.
pub fn rows(rt: &impl Abort, alloc: Global, table: &str) -> Result<(), Fail> {
    let mut bench = Bench::new(alloc)?;
    for row in table.lines() {
        let (variables, rest) = row.split_once(" | ").ok_or("no goal")?;
        let (text, wanted) = rest.split_once(" | ").ok_or("no lines")?;
        let given = all_given(alloc, variables)?;
        let goal = bench.goal(given.as_slice(), text)?;
        let made = bench.procedure(&goal, given.as_slice())?;
        let lines = lines_of(alloc, &made, &bench.atoms)?;
        assert_eq!(rt; lines.as_str(), wanted, "{row}");
        check(rt, alloc, &made, &bench.atoms, text)?;
    }
    Ok(())
}

/// The facts of variables with a value.
pub const FACTS: [Fact; 6] = [
    Fact::Full,
    Fact::GroundDirect,
    Fact::Ground,
    Fact::Direct,
    Fact::Nonvar,
    Fact::Any,
];
