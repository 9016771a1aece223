ghost use Rattle.std.specs.Prelude.{◌≡◌, [], IfOk, OnOk, fold, replicate};
ghost use Rattle.rule_code.specs.Passes.{placed};

use crate::bodies::Bodies;
use crate::rule::Rule;
use aq_term::memory::Memory;
use aq_term::proc_name::ProcName;
use std::alloc::Global;

/// Clauses by the names of their heads: these names, each once, in the order in which they first appear, and for each
/// number of the table the bodies of the clauses of that name, in text order.
#[derive(Debug, Drop)]
pub struct Grouped {
    pub order: Vec<ProcName>,
    pub rows: Vec<Bodies>,
}

/// Clauses by the names of their heads, which are numbers of a table with `count` names.
pub fn group(alloc: Global, rules: Vec<Rule>, count: usize) -> Result<Grouped, Memory>
    ensures { IfOk result (λ grouped. record { order = grouped.order.items; rows = grouped.rows.items }
        ≡ fold placed (record { order = []; rows = replicate count [] }) rules.items) }
{
    let mut order = Vec::new(alloc);
    let mut rows = empty_rows(alloc, count)?;
    for rule in rules {
        place(&mut order, &mut rows, rule)?;
    }
    Ok(Grouped { order, rows })
}

/// As many empty lists of bodies.
fn empty_rows(alloc: Global, count: usize) -> Result<Vec<Bodies>, Memory>
    ensures { IfOk result (λ rows. rows.items ≡ replicate count []) }
{
    let mut rows = Vec::with_capacity(alloc, count)?;
    for _ in 0..count {
        rows.push(Bodies::new(alloc))?;
    }
    Ok(rows)
}

/// Puts a clause to those of its name.
fn place(order: &mut Vec<ProcName>, rows: &mut Vec<Bodies>, rule: Rule) -> Result<(), Memory>
    ensures { OnOk result (record { order = order.new.items; rows = rows.new.items }
        ≡ placed (record { order = order.old.items; rows = rows.old.items }) rule) }
{
    let Rule { head, goals } = rule;
    if let Some(row) = rows.get_mut(head.name.number as usize) {
        if row.is_empty() {
            order.push(head)?;
        }
        row.push(goals)?;
    }
    Ok(())
}
