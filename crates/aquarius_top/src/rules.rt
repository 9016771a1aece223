//! The program of names that an accepted text stands for.
use crate::front::Accepted;
use aq_term::atom::Atom;
use aq_term::atoms::Atoms;
use aq_term::memory::Memory;
use source_meaning::rule_program::{RuleClause, RuleProgram};
use source_program::goal::Goal;
use source_program::predicate::Predicate;
use std::alloc::Global;

/// The program of the text, the entry being the one that the query meets, or `None` where a predicate has arguments or a
/// body is other than `true` and calls of names. Its clauses are gathered by predicate, and its names are lent from the
/// table.
pub fn rules_of(alloc: Global, accepted: &Accepted) -> Result<Option<RuleProgram<'_>>, Memory> {
    let Some(entry) = accepted.program.entries.as_slice().get(accepted.entry) else {
        return Ok(None);
    };
    let mut clauses = Vec::new(alloc);
    for predicate in accepted.program.predicates.as_slice() {
        if predicate.arity != 0 || !push_clauses(alloc, predicate, &accepted.atoms, &mut clauses)? {
            return Ok(None);
        }
    }
    Ok(Some(RuleProgram {
        entry: accepted.atoms.text_or_empty(entry.name),
        clauses,
    }))
}

/// Puts the clauses of a predicate without arguments at the end, and answers whether each body is `true` and calls of
/// names.
fn push_clauses<'a>(
    alloc: Global,
    predicate: &Predicate,
    atoms: &'a Atoms,
    clauses: &mut Vec<RuleClause<'a>>,
) -> Result<bool, Memory> {
    let head = atoms.text_or_empty(predicate.name);
    for clause in predicate.clauses.as_slice() {
        let mut body = Vec::new(alloc);
        if !push_calls(&clause.body, atoms, &mut body)? {
            return Ok(false);
        }
        clauses.push(RuleClause { head, body })?;
    }
    Ok(true)
}

/// Puts the names that a goal calls at the end, and answers whether it is `true` and calls of names. It goes as deep as
/// conjunctions stand on the left of conjunctions.
fn push_calls<'a>(goal: &Goal, atoms: &'a Atoms, calls: &mut Vec<&'a str>) -> Result<bool, Memory> {
    let mut rest = goal;
    while let Goal::And(first, second) = rest {
        if !push_calls(first.get(), atoms, calls)? {
            return Ok(false);
        }
        rest = second.get();
    }
    push_call(rest, atoms, calls)
}

/// Puts the name that a goal other than a conjunction calls at the end, and answers whether it is `true` or such a call.
fn push_call<'a>(goal: &Goal, atoms: &'a Atoms, calls: &mut Vec<&'a str>) -> Result<bool, Memory> {
    match goal {
        Goal::True => Ok(true),
        Goal::Call(name, arguments) if arguments.len() == 0 => {
            calls.push(atoms.text_or_empty(*name))?;
            Ok(true)
        }
        _ => Ok(false),
    }
}
