//! What the command `analyse` writes: the least facts of a program.
#![tactic(auto)]

ghost use Rattle.std.specs.Prelude.{◌≡◌, List, IfOk};
ghost use Rattle.facts_text.specs.FactsText.{lines_text};
ghost use Rattle.flow_equations.specs.declared.predicate_facts.PredicateFacts.{PredicateFacts};

use aq_term::atoms::Atoms;
use aq_term::memory::Memory;
use facts_text::facts_text;
use flow_analysis::analyse;
use kernel_form::to_kernel;
use source_program::program::Program;
use std::alloc::Global;

/// A line for each predicate of the program's kernel form that a query which meets an entry can call, with the facts of its arguments
/// at each call and at each success. The names of the program are in the table.
pub fn analyse_text(alloc: Global, program: &Program, atoms: &Atoms) -> Result<Vec<u8>, Memory>
    ensures { IfOk result (λ text. (facts : List PredicateFacts) × (text.items ≡ lines_text atoms.now facts)) }
{
    let kernel = to_kernel(alloc, program)?;
    let facts = analyse(alloc, &kernel, &program.entries)?;
    facts_text(alloc, &facts, atoms)
}
