use crate::harness::{ReadProgram, program_of};
use crate::numbers::Numbers;
use crate::recount::{Recount, recount_of};
use crate::well_formed::fault_of;
use kernel_form::to_kernel;
use kernel_ir::kernel::Kernel;
use source_program::outline_builder::outline_of;
use source_program::outline_counts::counts_of;
use source_program::program::Program;
use std::alloc::{AllocError, Global};
use std::process::Abort;
use std::test::Fail;

/// How many programs follow from a seed.
const PROGRAMS: u32 = 500;

/// A variable, a constant or a compound.
fn term(alloc: Global, numbers: &mut Numbers) -> Result<String, AllocError> {
    let variable = numbers.below(6);
    let other = numbers.below(6);
    match numbers.below(10) {
        0 => format!(in alloc; "a"),
        1 => format!(in alloc; "{other}"),
        2 => format!(in alloc; "f(V{variable})"),
        3 => format!(in alloc; "g(V{variable},f(V{other}))"),
        4 => format!(in alloc; "[b|V{variable}]"),
        5 => format!(in alloc; "f(f(c))"),
        _ => format!(in alloc; "V{variable}"),
    }
}

/// A goal without other goals inside.
fn plain_goal(alloc: Global, numbers: &mut Numbers) -> Result<String, AllocError> {
    let first = term(alloc, numbers)?;
    let second = term(alloc, numbers)?;
    match numbers.below(16) {
        0 | 1 => format!(in alloc; "!"),
        2 => format!(in alloc; "true"),
        3 => format!(in alloc; "fail"),
        4 => format!(in alloc; "{first} = {second}"),
        5 => format!(in alloc; "{first} \\= {second}"),
        6 => format!(in alloc; "{first} is {second}+1"),
        7 => format!(in alloc; "{first} =< {second}"),
        8 => format!(in alloc; "{first} == {second}"),
        9 => format!(in alloc; "throw({first})"),
        10 => format!(in alloc; "p({first})"),
        11 => format!(in alloc; "q({first},{second})"),
        12 => format!(in alloc; "q({first},{first})"),
        13 => format!(in alloc; "u({second},{first})"),
        14 => format!(in alloc; "write({first})"),
        _ => format!(in alloc; "r"),
    }
}

/// Puts a goal that is made of the last goals on the stack in their place, or a goal without others inside on top.
fn next_goal(
    alloc: Global,
    numbers: &mut Numbers,
    goals: &mut Vec<String>,
) -> Result<(), AllocError> {
    let choice = numbers.below(12);
    if choice == 0 {
        if let Some(goal) = goals.pop() {
            return Ok(goals.push(format!(in alloc; "\\+ ({goal})")?)?);
        }
    }
    if choice < 7 && goals.len() >= 2 {
        if let (Some(second), Some(first)) = (goals.pop(), goals.pop()) {
            let catcher = term(alloc, numbers)?;
            let made = match choice {
                1 => format!(in alloc; "({first} -> {second})"),
                2 => format!(in alloc; "({first} ; {second})"),
                3 => format!(in alloc; "(({first} -> {second}) ; true)"),
                4 => format!(in alloc; "catch(({first}), {catcher}, ({second}))"),
                5 => format!(in alloc; "(r ; {first} ; {second})"),
                _ => format!(in alloc; "({first} , {second})"),
            };
            return Ok(goals.push(made?)?);
        }
    }
    Ok(goals.push(plain_goal(alloc, numbers)?)?)
}

/// A body that is made in so many rounds.
fn body(alloc: Global, numbers: &mut Numbers, rounds: u32) -> Result<String, AllocError> {
    let mut goals = Vec::new(alloc);
    for _ in 0..rounds {
        next_goal(alloc, numbers, &mut goals)?;
    }
    let mut text = format!(in alloc; "true")?;
    for goal in goals {
        text = format!(in alloc; "{text} , {goal}")?;
    }
    Ok(text)
}

/// A clause of one of three predicates.
fn clause(alloc: Global, numbers: &mut Numbers) -> Result<String, AllocError> {
    let rounds = numbers.below(14);
    let body = body(alloc, numbers, rounds)?;
    let first = term(alloc, numbers)?;
    let second = term(alloc, numbers)?;
    match numbers.below(3) {
        0 => format!(in alloc; "p({first}) :- {body}."),
        1 => format!(in alloc; "q({first},{second}) :- {body}."),
        _ => format!(in alloc; "r :- {body}."),
    }
}

fn program_text(alloc: Global, numbers: &mut Numbers) -> Result<String, AllocError> {
    let mut text = format!(in alloc; ":- entry(main). main :- r.")?;
    let clauses = 1 + numbers.below(4);
    for _ in 0..clauses {
        let clause = clause(alloc, numbers)?;
        text = format!(in alloc; "{text} {clause}")?;
    }
    Ok(text)
}

/// What the limits count of the clauses of a program, each with its number in the text.
fn counted(alloc: Global, program: &Program) -> Result<Vec<(u64, Recount)>, Fail> {
    let mut rows = Vec::new(alloc);
    for predicate in program.predicates.as_slice() {
        for clause in predicate.clauses.as_slice() {
            let outline = outline_of(alloc, clause)?;
            let counts = counts_of(alloc, &outline)?;
            let row = Recount {
                branch: counts.branch as u64,
                variables: counts.variables,
                slots: counts.slots,
                nodes: counts.nodes,
                total: counts.total,
            };
            rows.push((clause.number, row))?;
        }
    }
    Ok(rows)
}

/// Tries the programs that follow from a seed: their kernel form is well formed, and what the limits count is so of it.
fn assert_programs(rt: &impl Abort, alloc: Global, seed: u32) -> Result<(), Fail> {
    let mut numbers = Numbers { state: seed };
    for _ in 0..PROGRAMS {
        let text = program_text(alloc, &mut numbers)?;
        assert_program(rt, alloc, text.as_str())?;
    }
    Ok(())
}

fn assert_program(rt: &impl Abort, alloc: Global, text: &str) -> Result<(), Fail> {
    let ReadProgram { program, .. } = program_of(rt, alloc, text)?;
    let kernel: Kernel = to_kernel(alloc, &program)?;
    let fault = fault_of(alloc, &kernel)?;
    assert_eq!(rt; fault, None, "{text}");
    for (source, wanted) in counted(alloc, &program)? {
        let given = recount_of(alloc, &kernel, source)?;
        assert_eq!(rt; given, wanted, "clause {source} of {text}");
    }
    Ok(())
}

#[test]
fn generated_programs(rt: HostRuntime) -> Result<(), Fail> {
    assert_programs(&rt, rt.alloc(), 7)
}

#[test]
fn other_generated_programs(rt: HostRuntime) -> Result<(), Fail> {
    assert_programs(&rt, rt.alloc(), 11)
}

#[test]
fn further_generated_programs(rt: HostRuntime) -> Result<(), Fail> {
    assert_programs(&rt, rt.alloc(), 1_000_003)
}

#[test]
fn more_generated_programs(rt: HostRuntime) -> Result<(), Fail> {
    assert_programs(&rt, rt.alloc(), 77_777)
}

#[test]
fn a_predicate_of_many_clauses(rt: HostRuntime) -> Result<(), Fail> {
    let alloc = rt.alloc();
    let mut text = format!(in alloc; ":- entry(main). main.")?;
    for _ in 0..5_000 {
        text.push_str(" p(X,a) :- ( q(X) ; r ).")?;
    }
    let ReadProgram { program, .. } = program_of(&rt, alloc, text.as_str())?;
    let kernel: Kernel = to_kernel(alloc, &program)?;
    assert_eq!(rt; kernel.predicates.len(), 5_002);
    Ok(())
}
