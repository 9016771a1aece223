ghost use Rattle.std.specs.Prelude.{◌≡◌, ◌≤◌, ◌&&◌, nat_le, ℕ, List, [], IfOk, IfSome, IsTrue, MatchOption, length};
ghost use Rattle.std.specs.List.{list_all};
ghost use Rattle.source_meaning.specs.Closed.{Closed};
ghost use Rattle.source_meaning.specs.Program.{Program};
ghost use Rattle.bam_meaning.specs.Linked.{entry_places, linked};
ghost use Rattle.source_meaning.specs.RuleProgram.{program_of};
ghost use Rattle.aquarius_top.specs.FrontRefusal.{MOST_INPUT, FrontRefuses};
ghost use Rattle.aquarius_top.specs.FrontFault.{IsFaultBy};
ghost use Rattle.aquarius_top.specs.Chosen.{IsSupported, fits, goals_fit};
ghost use Rattle.aquarius_top.specs.Ran.{IsImageOf};
ghost use Rattle.aquarius_top.specs.Plan.{IsPlan};

use crate::front::{Accepted, FrontFault, accept};
use crate::rules::rules_of;
use aq_base::refusal::Refusal;
use aq_term::atoms::Atoms;
use aq_term::memory::Memory;
use bam_code::code::Code;
use bam_link::image::Image;
use bam_link::link::link;
use bam_link::link_fault::LinkFault;
use rule_code::compile::compile;
use rule_code::compile_fault::CompileFault;
use rule_text::name::is_name;
use rule_text::read::read_rule_text;
use source_meaning::rule_program::{RuleClause, RuleProgram};
use std::alloc::Global;

/// The most clauses that a program of names may have: with one more it passes the limit `total`.
const MOST_CLAUSES: usize = 262_144;

/// The most goals that a body of names may have: with one more its clause is too deep a term.
const MOST_GOALS: usize = 4_095;

/// What a query on a text comes to.
#[derive(Drop)]
pub enum Plan {
    /// The query is refused for this cause.
    Refused(Refusal),
    /// The query runs this image from its first entry.
    Run(Image),
    /// The query runs this program once it is compiled.
    Compile(Accepted),
}

/// What the query on the text comes to.
pub fn plan_run(alloc: Global, query: &[u8], text: &[u8]) -> Result<Plan, Memory>
    requires { length text.now ≤ MOST_INPUT }
    ensures { IfOk result (IsPlan query.now text.now) }
{
    let Some(program) = read_rule_text(alloc, text)? else {
        return plan_by_front(alloc, query, text);
    };
    if !is_name(query) {
        return plan_by_front(alloc, query, text);
    }
    if !is_within(&program) {
        return plan_by_front(alloc, query, text);
    }
    let Some(image) = image_of(alloc, &program)? else {
        return plan_by_front(alloc, query, text);
    };
    if query != program.entry.as_bytes() {
        return Ok(Plan::Refused(Refusal::NotEntry));
    }
    Ok(Plan::Run(image))
}

/// What a query on a text comes to that are not a name and a program of names as the exact reader takes them. Where no refusal
/// holds the program is to be compiled, but a program of names goes the way of those that the exact reader takes.
fn plan_by_front(alloc: Global, query: &[u8], text: &[u8]) -> Result<Plan, Memory>
    requires size { length text.now ≤ MOST_INPUT }
    requires none { IsSupported query.now text.now → ⊥ }
    ensures { IfOk result (IsPlan query.now text.now) }
{
    let accepted = match accept(alloc, query, text) {
        Ok(accepted) => accepted,
        Err(fault) => {
            let cause = refusal_of(fault)?;
            return Ok(Plan::Refused(cause));
        }
    };
    match image_of_names(alloc, &accepted)? {
        Some(image) => Ok(Plan::Run(image)),
        None => Ok(Plan::Compile(accepted)),
    }
}

/// The linked code of a program of names, each of which has a clause; `None` for another program.
fn image_of_names(alloc: Global, accepted: &Accepted) -> Result<Option<Image>, Memory>
    ensures { IfOk result (λ found. IfSome found (λ image. (program : Program) × IsImageOf program image)) }
{
    match rules_of(alloc, accepted)? {
        Some(program) => image_of(alloc, &program),
        None => Ok(None),
    }
}

/// The refusal that a fault of the front names.
pub fn refusal_of(fault: FrontFault) -> Result<Refusal, Memory>
    ensures { (text query : List ℕ) → IsFaultBy (FrontRefuses text query) fault
        → IfOk result (FrontRefuses text query) }
{
    match fault {
        FrontFault::Refused(cause) => Ok(cause),
        FrontFault::Memory => Err(Memory),
    }
}

/// Whether the program is within the limits of the language.
#[tactic(auto, using(crate::proofs::Within::clauses_counted, crate::proofs::Within::clauses_tested))]
fn is_within(program: &RuleProgram<'_>) -> bool
    ensures { result ≡ fits (program_of program.now) }
{
    let clauses = program.clauses.as_slice();
    clauses.len() <= MOST_CLAUSES && have_few_goals(clauses)
}

/// Whether each body has few goals enough.
fn have_few_goals(clauses: &[RuleClause<'_>]) -> bool
    ensures { result ≡ list_all goals_fit clauses.now }
{
    clauses.iter().all(|clause| goals_fit(clause))
}

/// Whether the body has few goals enough.
#[tactic(auto, using(crate::proofs::Within::names_counted))]
fn goals_fit(clause: &RuleClause<'_>) -> bool
    ensures { result ≡ goals_fit clause.now }
{
    clause.body.len() <= MOST_GOALS
}

/// The linked code of a program, or `None` exactly where the entry's name or a name that a clause calls has no clause.
fn image_of(alloc: Global, program: &RuleProgram<'_>) -> Result<Option<Image>, Memory>
    ensures { IfOk result (λ found. MatchOption found (Closed (program_of program.now) → ⊥) (IsImageOf (program_of program.now))) }
{
    let mut atoms = Atoms::new(alloc)?;
    match compile(alloc, program, &mut atoms) {
        Ok(code) => Ok(Some(link_whole(alloc, &code)?)),
        Err(CompileFault::Undefined) => Ok(None),
        Err(CompileFault::Memory) => Err(Memory),
    }
}

/// The linked form of a code without imports.
fn link_whole(alloc: Global, code: &Code) -> Result<Image, Memory>
    requires { code.now.imports ≡ [] }
    ensures { IfOk result (λ image. image ≡ record {
      instructions = linked code.now;
      entries = entry_places code.now;
    }) }
{
    match link(alloc, code) {
        Ok(image) => Ok(image),
        Err(LinkFault::Undefined(_import)) => unreachable!(),
        Err(LinkFault::Memory) => Err(Memory),
    }
}
