ghost use Rattle.std.specs.Prelude.{◌≡◌, ◌≤◌, ◌<◌};

use aq_base::limits::Limits;
use aq_base::memory_sink::MemorySink;
use aq_base::steps::Steps;
use aq_term::atoms::Atoms;
use bam_link::link::link;
use bam_machine::end::End;
use bam_machine::machine::Machine;
use rule_code::compile::compile;
use rule_code::law::compiled_code_keeps_rules;
use source_meaning::rule_program::RuleProgram;
use std::alloc::Global;
use std::marker::Brand;
use std::sync::ledger::{Blank, Ledger};
use std::test::Fail;

/// What a run came to: how it ended, how many instructions its code has, and the steps and choices.
#[derive(Drop)]
pub struct Ran {
    pub end: End,
    pub instructions: u64,
    pub steps: u64,
    pub choices: u64,
}

fn to_end<L: Ledger>(machine: &mut Machine<'_>, sink: &mut MemorySink, blank: Blank) -> End
    requires name { blank.name ≡ L.name }
    requires parts { blank.parts ≡ L.parts }
    requires some_part { 0 < L.parts }
{
    let mut steps = Steps::<L>::new(blank);
    machine.run_to_end(sink, &mut steps).end
}

/// Runs the query of a program's entry under limits.
pub fn run(
    alloc: Global,
    program: &RuleProgram<'_>,
    limits: &Limits,
    sink: &mut MemorySink,
) -> Result<Ran, Fail>
    requires heap { limits.now.heap ≤ 67108864 }
    requires env { limits.now.env ≤ 16777216 }
    requires choice { limits.now.choice ≤ 16777216 }
    requires trail { limits.now.trail ≤ 16777216 }
    requires work { limits.now.work ≤ 16777216 }
{
    let mut atoms = Atoms::new(alloc)?;
    let Ok(code) = compile(alloc, program, &mut atoms) else {
        return Err(Fail::new("no code"));
    };
    compiled_code_keeps_rules();
    let Ok(image) = link(alloc, &code) else {
        return Err(Fail::new("no image"));
    };
    let mut machine = Machine::open(alloc, &image, &atoms, limits)?;
    machine.start_entry(0);
    let end = to_end::<Brand>(&mut machine, sink, Blank::new(1));
    Ok(Ran {
        end,
        instructions: image.instructions(),
        steps: machine.steps(),
        choices: machine.choices(),
    })
}
