use analyse_text::analyse_text;
use aq_term::atoms::Atoms;
use aq_term::read_terms::ReadTerms;
use prolog_reader::read::read_clause;
use prolog_tokens::scan::next_clause;
use source_program::fault::GatherFault;
use source_program::gather;
use std::alloc::Global;
use std::fmt::Write;
use std::process::Abort;
use std::test::Fail;

/// The most bytes of a program.
const MANY: usize = 1_000_000;

/// Programs, each followed by the lines of its facts, which begin with `>`, and an empty line.
const PROGRAMS: &str = "\
:- entry(app(ground,ground,out)).
app([],L,L).
app([H|T],L,[H|R]) :- app(T,L,R).
> app/3 call full full out success ground ground full

:- entry(len(ground,out)). len([],0). len([_|T],N) :- len(T,M), N is M+1.
> len/2 call full out success ground full

:- entry(p(out)). p(X) :- ( q(X), ! ; X = 0 ). q(1).
> p/1 call out success full
> p/1#1/2 call out bar success full bar
> q/1 call out success full

:- entry(p(ground)). p(a) :- write(1). p(b) :- fail. p(c).
> p/1 call full success ground

:- entry(p(out)). p(X) :- ( q(Y), Y > 1 -> X = Y ; X = 0 ). p(7). q(1). q(2). q(3).
> p/1 call out success full
> p/1#1/1 call out success full
> q/1 call out success full

:- entry(p(out)). p(X) :- \\+ X = a, q(X). p(b). q(c).
> p/1 call out success ground
> p/1#1/1 call out success any
> q/1 call any success ground

:- entry(p(out)). p(X) :- catch(q(X),E,X = c(E)). q(1). q(X) :- throw(b).
> p/1 call out success any
> p/1#1/1 call out success any
> p/1#2/1 call any success ground
> p/1#3/2 call any any success any nonvar
> q/1 call any success ground
";

/// The facts of a program as text.
fn lines_of(alloc: Global, program: &str) -> Result<String, Fail> {
    let mut atoms = Atoms::new(alloc)?;
    let terms = read(alloc, program.as_bytes(), &mut atoms)?;
    match gather(alloc, &terms, &atoms) {
        Ok(program) => Ok(String::from_utf8(analyse_text(alloc, &program, &atoms)?)?),
        Err(GatherFault::Memory) => Err(Fail::new("out of memory")),
        Err(GatherFault::Refused(_)) => Err(Fail::new("refused")),
    }
}

fn read(alloc: Global, text: &[u8], atoms: &mut Atoms) -> Result<ReadTerms, Fail> {
    let mut terms = ReadTerms::new(alloc);
    let mut at = 0;
    for _ in 0..MANY {
        if at > text.len() || text.len() > MANY || atoms.len() > MANY {
            return Err("too long".into());
        }
        let Some(clause) = next_clause(alloc, text, at)? else {
            return Ok(terms);
        };
        at = clause.end;
        terms.push(read_clause(alloc, &clause.tokens, atoms)?)?;
    }
    Err("too many clauses".into())
}

/// Compares the facts of a program with these lines.
fn compare(rt: &impl Abort, alloc: Global, program: &str, wanted: &str) -> Result<(), Fail> {
    let found = lines_of(alloc, program)?;
    let found = found.as_str();
    let agree = found == wanted;
    assert!(rt; agree, "{program}wanted {wanted}found {found}");
    Ok(())
}

#[test]
fn facts_of_programs_are_written(rt: HostRuntime) -> Result<(), Fail> {
    let alloc = rt.alloc();
    let mut program = String::new(alloc);
    let mut wanted = String::new(alloc);
    for line in PROGRAMS.lines() {
        if line.is_empty() {
            compare(&rt, alloc, program.as_str(), wanted.as_str())?;
            program = String::new(alloc);
            wanted = String::new(alloc);
        } else if let Some(facts) = line.strip_prefix("> ") {
            writeln!(wanted, "{facts}")?;
        } else {
            writeln!(program, "{line}")?;
        }
    }
    compare(&rt, alloc, program.as_str(), wanted.as_str())
}

#[test]
fn a_chain_has_one_fact_throughout(rt: HostRuntime) -> Result<(), Fail> {
    let alloc = rt.alloc();
    let mut program = String::from_str(alloc, ":- entry(p0(ground)).\n")?;
    let mut wanted = String::new(alloc);
    for number in 0..2000u32 {
        let next = number.saturating_add(1);
        writeln!(program, "p{number}(X) :- p{next}(X).")?;
        writeln!(wanted, "p{number}/1 call full success ground")?;
    }
    writeln!(program, "p2000(a).")?;
    writeln!(wanted, "p2000/1 call full success ground")?;
    compare(&rt, alloc, program.as_str(), wanted.as_str())
}
