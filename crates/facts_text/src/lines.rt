ghost use Rattle.std.specs.Prelude.{◌≡◌, ◌++◌, OnOk, IfOk, if◌then◌else◌, []};
ghost use Rattle.facts_text.specs.FactsText as spelled;

use crate::output::Output;
use crate::word::fact_word;
use aq_term::atoms::Atoms;
use aq_term::memory::Memory;
use aq_term::proc_name::ProcName;
use aq_term::term::Term;
use flow_equations::facts::Facts;
use flow_equations::predicate_facts::PredicateFacts;
use prolog_writer::write_term;
use std::alloc::Global;
use type_lattice::fact::Fact;

/// The priority of a name that stands alone.
const MOST: u16 = 1200;

/// A line for each predicate that is called: its name, the facts of its arguments at each call, and those where a call succeeds.
/// An auxiliary predicate is `p/2#1/3`, the first of `p/2`, with three arguments. The last of these is a barrier where it has no
/// facts, and is written `bar`. A name that is not in the table has the empty text.
pub fn facts_text(alloc: Global, facts: &Facts, atoms: &Atoms) -> Result<Vec<u8>, Memory>
    ensures { IfOk result (λ text. text.items ≡ spelled.lines_text atoms.now facts.now) }
{
    let mut output = Output::new(alloc);
    lines(alloc, &mut output, atoms, facts.as_slice())?;
    Ok(output.into_bytes())
}

fn lines(
    alloc: Global,
    output: &mut Output,
    atoms: &Atoms,
    predicates: &[PredicateFacts],
) -> Result<(), Memory>
    ensures { OnOk result (output.new ≡ output.old ++ spelled.lines_text atoms.now predicates.now) }
{
    for facts in predicates {
        line_where_called(alloc, output, atoms, facts)?;
    }
    Ok(())
}

fn line_where_called(
    alloc: Global,
    output: &mut Output,
    atoms: &Atoms,
    facts: &PredicateFacts,
) -> Result<(), Memory>
    ensures { OnOk result (output.new ≡ output.old ++ (if facts.now.reached then spelled.line_text atoms.now facts.now else [])) }
{
    if facts.reached {
        line(alloc, output, atoms, facts)?;
    }
    Ok(())
}

fn line(
    alloc: Global,
    output: &mut Output,
    atoms: &Atoms,
    facts: &PredicateFacts,
) -> Result<(), Memory>
    ensures { OnOk result (output.new ≡ output.old ++ spelled.line_text atoms.now facts.now) }
{
    name(alloc, output, atoms, &facts.name)?;
    output.text(" call")?;
    fields(output, facts.call.as_slice())?;
    barrier(output, facts)?;
    output.text(" success")?;
    fields(output, facts.success.as_slice())?;
    barrier(output, facts)?;
    output.byte(b'\n')
}

fn name(alloc: Global, output: &mut Output, atoms: &Atoms, name: &ProcName) -> Result<(), Memory>
    ensures { OnOk result (output.new ≡ output.old ++ spelled.name_text atoms.now name.now) }
{
    let text = write_term(alloc, &Term::Atom(name.name), atoms, true, MOST)?;
    output.bytes(text.as_slice())?;
    output.byte(b'/')?;
    output.number(u64::from(name.arity))?;
    part(output, name)
}

/// The number of an auxiliary predicate, and how many arguments it has.
fn part(output: &mut Output, name: &ProcName) -> Result<(), Memory>
    ensures { OnOk result (output.new ≡ output.old ++ spelled.part_text name.now) }
{
    if name.part == 0 {
        return Ok(());
    }
    output.byte(b'#')?;
    output.number(u64::from(name.part))?;
    output.byte(b'/')?;
    output.number(u64::from(name.width))
}

/// A space and a word for each fact.
fn fields(output: &mut Output, facts: &[Fact]) -> Result<(), Memory>
    ensures { OnOk result (output.new ≡ output.old ++ spelled.words_of facts.now) }
{
    for fact in facts {
        output.field(fact_word(*fact))?;
    }
    Ok(())
}

/// The barrier, where the predicate has one.
fn barrier(output: &mut Output, facts: &PredicateFacts) -> Result<(), Memory>
    ensures { OnOk result (output.new ≡ output.old ++ spelled.barrier_text facts.now) }
{
    if facts.call.len() < facts.name.width as usize {
        output.field("bar")?;
    }
    Ok(())
}
