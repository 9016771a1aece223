ghost use Rattle.std.specs.Prelude.{◌≡◌, ◌<◌, ◌≤◌, IfOk};

use aq_base::area_name::AreaName;
use aq_base::limits::Limits;
use aq_base::memory_sink::MemorySink;
use aq_base::refusal::refusal_text;
use aq_base::steps::Steps;
use bam_machine::end::End;
use code_exec::exec::exec_text;
use code_exec::exec_fault::ExecFault;
use code_exec::ran::Ran;
use std::alloc::Global;
use std::marker::Brand;
use std::process::Abort;
use std::sync::ledger::{Blank, Ledger};
use std::test::Fail;

/// The most bytes that a test's run may write.
const ROOM: usize = 65_536;

/// What stands for a new line in a table.
const BREAK: &str = " / ";

fn run<L: Ledger>(
    alloc: Global,
    query: &String,
    text: &[u8],
    limits: &Limits,
    sink: &mut MemorySink,
    blank: Blank,
) -> Result<Ran, ExecFault>
    requires name { blank.name ≡ L.name }
    requires parts { blank.parts ≡ L.parts }
    requires some_part { 0 < L.parts }
    requires heap { limits.now.heap ≤ 67108864 }
    requires env { limits.now.env ≤ 16777216 }
    requires choice { limits.now.choice ≤ 16777216 }
    requires trail { limits.now.trail ≤ 16777216 }
    requires work { limits.now.work ≤ 16777216 }
{
    let mut steps = Steps::<L>::new(blank);
    exec_text(alloc, query.as_str(), text, limits, sink, &mut steps)
}

/// The limits, none above what a machine takes.
fn allowed(limits: &Limits) -> Limits
    ensures heap { result.heap ≤ 67108864 }
    ensures env { result.env ≤ 16777216 }
    ensures choice { result.choice ≤ 16777216 }
    ensures trail { result.trail ≤ 16777216 }
    ensures work { result.work ≤ 16777216 }
{
    Limits {
        steps: limits.steps,
        heap: limits.heap.min(67_108_864),
        env: limits.env.min(16_777_216),
        choice: limits.choice.min(16_777_216),
        trail: limits.trail.min(16_777_216),
        work: limits.work.min(16_777_216),
    }
}

/// All that a run writes, with the lines of its ending and its counts, or the line of the refusal.
pub fn output(alloc: Global, text: &str, query: &str, limits: &Limits) -> Result<String, Fail> {
    let mut sink = MemorySink::new(alloc, ROOM, ROOM, Vec::new(alloc))?;
    let limits = allowed(limits);
    let query = String::from_str(alloc, query)?;
    let text = text.as_bytes();
    match run::<Brand>(alloc, &query, text, &limits, &mut sink, Blank::new(1)) {
        Ok(ran) => whole_output(alloc, &sink, ran),
        Err(ExecFault::Refused(refusal)) => {
            let line = refusal_text(alloc, &refusal)?;
            text_of(alloc, line.as_slice())
        }
        Err(ExecFault::Memory) => Err(Fail::new("out of memory")),
    }
}

fn text_of(alloc: Global, bytes: &[u8]) -> Result<String, Fail> {
    let text = str::from_utf8(bytes).ok().ok_or("no text")?;
    Ok(String::from_str(alloc, text)?)
}

fn whole_output(alloc: Global, sink: &MemorySink, ran: Ran) -> Result<String, Fail> {
    let mut text = text_of(alloc, sink.bytes())?;
    if let Some(ending) = ending(ran.end) {
        if ran.line_begun {
            text.push_str("\n")?;
        }
        text.push_str(ending)?;
        text.push_str("\n")?;
    }
    let instructions = ran.instructions;
    let steps = ran.steps;
    let choices = ran.choices;
    let counts = format!(in alloc; "% code {instructions} steps {steps} choices {choices}\n")?;
    text.push_str(counts.as_str())?;
    Ok(text)
}

/// The line of an ending that the machine leaves to its caller.
fn ending(end: End) -> Option<&'static str> {
    match end {
        End::Exhausted => Some("no"),
        End::StepLimit => Some("limit: steps"),
        End::AreaLimit(AreaName::Heap) => Some("limit: heap"),
        End::AreaLimit(AreaName::Env) => Some("limit: env"),
        End::AreaLimit(AreaName::Choice) => Some("limit: choice"),
        End::AreaLimit(AreaName::Trail) => Some("limit: trail"),
        End::AreaLimit(AreaName::Work) => Some("limit: work"),
        End::Stray => Some("stray"),
        End::Raised | End::Solution | End::WriteFault => None,
    }
}

/// A text of which the lines stand between breaks.
pub fn lines_of(alloc: Global, row: &str) -> Result<String, Fail> {
    let mut text = String::new(alloc);
    for line in row.split(BREAK) {
        text.push_str(line)?;
        text.push_str("\n")?;
    }
    Ok(text)
}

/// What a run needs: its steps and the words of heap, environment, choices and trail.
#[derive(Clone, Copy)]
pub struct Need {
    steps: u64,
    heap: u64,
    env: u64,
    choice: u64,
    trail: u64,
}

fn number(text: Option<&str>) -> Result<u64, Fail> {
    let text = text.ok_or("a number is missing")?;
    let number = text.parse::<u64>().ok().ok_or("no number")?;
    Ok(number)
}

fn need_of(text: &str) -> Result<Need, Fail> {
    let mut numbers = text.split(" ");
    Ok(Need {
        steps: number(numbers.next())?,
        heap: number(numbers.next())?,
        env: number(numbers.next())?,
        choice: number(numbers.next())?,
        trail: number(numbers.next())?,
    })
}

/// The limits of a run that has exactly what it needs, but that each is at least 1.
fn exactly(need: &Need) -> Limits {
    Limits {
        steps: need.steps.max(1),
        heap: need.heap.max(1),
        env: need.env.max(1),
        choice: need.choice.max(1),
        trail: need.trail.max(1),
        work: 4_194_304,
    }
}

/// Tests runs: in each row stand the lines of a text, the query, the need in steps and words of heap, environment, choices
/// and trail, and the lines of the output. A run with just what it needs writes the same, and one with one step or one word
/// less of something stops there.
pub fn runs(rt: &impl Abort, alloc: Global, table: &str) -> Result<(), Fail> {
    for row in table.lines() {
        let (text, rest) = row.split_once(" | ").ok_or("no query")?;
        let (query, rest) = rest.split_once(" | ").ok_or("no need")?;
        let (need, wanted) = rest.split_once(" | ").ok_or("no output")?;
        let text = lines_of(alloc, text)?;
        let wanted = lines_of(alloc, wanted)?;
        let need = need_of(need)?;
        let ample = output(alloc, text.as_str(), query, &Limits::default_limits())?;
        assert_eq!(rt; ample.as_str(), wanted.as_str(), "{row}");
        let exact = output(alloc, text.as_str(), query, &exactly(&need))?;
        assert_eq!(rt;
            exact.as_str(),
            wanted.as_str(),
            "with just what it needs: {row}"
        );
        one_less(rt, alloc, text.as_str(), query, &need)?;
    }
    Ok(())
}

/// Tests runs of texts that begin with the same lines: in each row stand the lines behind them but for the last `end`, and
/// then what `runs` takes.
pub fn runs_of(rt: &impl Abort, alloc: Global, front: &str, table: &str) -> Result<(), Fail> {
    for row in table.lines() {
        let (lines, rest) = row.split_once(" | ").ok_or("no query")?;
        let row = format!(in alloc; "{front} / {lines} / end | {rest}")?;
        runs(rt, alloc, row.as_str())?;
    }
    Ok(())
}

/// As `runs_of`, for what `outputs` takes.
pub fn outputs_of(rt: &impl Abort, alloc: Global, front: &str, table: &str) -> Result<(), Fail> {
    for row in table.lines() {
        let (lines, rest) = row.split_once(" | ").ok_or("no query")?;
        let row = format!(in alloc; "{front} / {lines} / end | {rest}")?;
        outputs(rt, alloc, row.as_str())?;
    }
    Ok(())
}

/// Tests that a run stops with one step or one word less than it needs.
fn one_less(
    rt: &impl Abort,
    alloc: Global,
    text: &str,
    query: &str,
    need: &Need,
) -> Result<(), Fail> {
    let exact = exactly(need);
    if need.steps > 1 {
        let limits = Limits {
            steps: need.steps - 1,
            ..exact
        };
        stops(rt, alloc, text, query, &limits, "limit: steps\n")?;
    }
    if need.heap > 1 {
        let limits = Limits {
            heap: need.heap - 1,
            ..exact
        };
        stops(rt, alloc, text, query, &limits, "limit: heap\n")?;
    }
    if need.env > 1 {
        let limits = Limits {
            env: need.env - 1,
            ..exact
        };
        stops(rt, alloc, text, query, &limits, "limit: env\n")?;
    }
    if need.choice > 1 {
        let limits = Limits {
            choice: need.choice - 1,
            ..exact
        };
        stops(rt, alloc, text, query, &limits, "limit: choice\n")?;
    }
    if need.trail > 1 {
        let limits = Limits {
            trail: need.trail - 1,
            ..exact
        };
        stops(rt, alloc, text, query, &limits, "limit: trail\n")?;
    }
    Ok(())
}

fn stops(
    rt: &impl Abort,
    alloc: Global,
    text: &str,
    query: &str,
    limits: &Limits,
    ending: &str,
) -> Result<(), Fail> {
    let given = output(alloc, text, query, limits)?;
    assert!(rt; given.contains(ending), "{given}");
    Ok(())
}

/// Tests runs under the default limits: in each row stand the lines of a text, the query and the lines of the output.
pub fn outputs(rt: &impl Abort, alloc: Global, table: &str) -> Result<(), Fail> {
    for row in table.lines() {
        let (text, rest) = row.split_once(" | ").ok_or("no query")?;
        let (query, wanted) = rest.split_once(" | ").ok_or("no output")?;
        let text = lines_of(alloc, text)?;
        let wanted = lines_of(alloc, wanted)?;
        let given = output(alloc, text.as_str(), query, &Limits::default_limits())?;
        assert_eq!(rt; given.as_str(), wanted.as_str(), "{row}");
    }
    Ok(())
}
