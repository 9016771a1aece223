ghost use Rattle.std.specs.Prelude.{◌≡◌, [], IfOk, OnOk, fold};
ghost use Rattle.aq_term.specs.Atoms.{place_of, with_text};
ghost use Rattle.source_meaning.specs.RuleProgram.{clauses_of, names_behind};
ghost use Rattle.rule_code.specs.Compiled.{named};
ghost use Rattle.rule_code.specs.Passes.{note, note_rule};

use crate::goals::Goals;
use crate::rule::Rule;
use aq_term::atoms::Atoms;
use aq_term::memory::Memory;
use aq_term::proc_name::ProcName;
use source_meaning::rule_program::RuleClause;
use std::alloc::Global;

/// How many names a table may have. A table with as many is no table that memory holds.
const MOST_NAMES: usize = 4_294_967_295;

/// The predicate without arguments that a text names. The text is put into the table.
pub fn number(atoms: &mut Atoms, text: &str) -> Result<ProcName, Memory>
    ensures table { OnOk result (atoms.new ≡ with_text atoms.old text.now) }
    ensures name { IfOk result (λ name. name ≡ named (place_of atoms.old text.now)) }
{
    if atoms.len() >= MOST_NAMES {
        return Err(Memory);
    }
    Ok(ProcName {
        name: atoms.number(text)?,
        arity: 0,
        part: 0,
        width: 0,
    })
}

/// The clauses by the numbers of their names, which are put into the table.
pub fn number_rules(
    alloc: Global,
    clauses: &[RuleClause<'_>],
    atoms: &mut Atoms,
) -> Result<Vec<Rule>, Memory>
    ensures { IfOk result (λ rules. record { texts = atoms.new; rules = rules.items }
        ≡ fold note_rule (record { texts = atoms.old; rules = [] }) (clauses_of clauses.now)) }
{
    let mut rules = Vec::with_capacity(alloc, clauses.len())?;
    for clause in clauses {
        let head = number(atoms, clause.head)?;
        let goals = number_names(alloc, clause.body.as_slice(), atoms)?;
        rules.push(Rule { head, goals })?;
    }
    Ok(rules)
}

fn number_names(alloc: Global, names: &[&str], atoms: &mut Atoms) -> Result<Goals, Memory>
    ensures { IfOk result (λ goals. record { texts = atoms.new; names = goals }
        ≡ fold note (record { texts = atoms.old; names = [] }) (names_behind names.now)) }
{
    let mut goals = Vec::with_capacity(alloc, names.len())?;
    for name in names {
        goals.push(number(atoms, name)?)?;
    }
    Ok(Goals::from_vec(goals))
}
