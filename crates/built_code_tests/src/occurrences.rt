use aq_term::args::Args;
use aq_term::term::Term;
use flow_equations::occurrences::term_variables;
use std::alloc::Global;
use std::test::Fail;

/// How often a variable stands among these.
pub fn times(variables: &[u32], variable: u32) -> usize {
    variables.iter().filter(|other| **other == variable).count()
}

/// These variables, each once.
pub fn each_once(alloc: Global, variables: &[u32]) -> Result<Vec<u32>, Fail> {
    let mut found = Vec::new(alloc);
    for variable in variables {
        if !found.contains(variable) {
            found.push(*variable)?;
        }
    }
    Ok(found)
}

/// How many compounds of a term have the variable somewhere in them, the term itself among them.
pub fn compounds_with(alloc: Global, term: &Term, variable: u32) -> Result<u64, Fail> {
    let mut pending = Vec::new(alloc);
    pending.push(term)?;
    let mut count: u64 = 0;
    for _ in 0..term.nodes() {
        let Some(part) = pending.pop() else {
            return Ok(count);
        };
        if let Term::Compound(_, args) = part {
            if term_variables(alloc, part)?.contains(&variable) {
                count = count.saturating_add(1);
                push_all(&mut pending, args)?;
            }
        }
    }
    Ok(count)
}

/// How many largest ground compounds a term has: it has one where it is ground itself.
pub fn largest_ground_compounds(alloc: Global, term: &Term) -> Result<u64, Fail> {
    let mut pending = Vec::new(alloc);
    pending.push(term)?;
    let mut count: u64 = 0;
    for _ in 0..term.nodes() {
        let Some(part) = pending.pop() else {
            return Ok(count);
        };
        if let Term::Compound(_, args) = part {
            if part.is_ground() {
                count = count.saturating_add(1);
            } else {
                push_all(&mut pending, args)?;
            }
        }
    }
    Ok(count)
}

fn push_all<'a>(pending: &mut Vec<&'a Term>, args: &'a Args) -> Result<(), Fail> {
    for term in args.as_slice() {
        pending.push(term)?;
    }
    Ok(())
}
