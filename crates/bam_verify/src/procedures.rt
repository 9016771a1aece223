ghost use Rattle.std.specs.Prelude.{◌≡◌, ◌≢◌, IfOk, IfSome};
ghost use Rattle.aq_term.specs.declared.rule.Rule.TheVariants as rule;
ghost use Rattle.bam_types.specs.Callees.{callee_in};
ghost use Rattle.bam_types.specs.Scopes.{within_of};
ghost use Rattle.bam_verify.specs.Accepts.{broken_from, broken_proc, broken_procs};
ghost use Rattle.bam_verify.specs.Handed.{IsPlace, IsBrokenLine, IsNumberOf};

use crate::broken::Broken;
use crate::reject::Reject;
use aq_term::memory::Memory;
use aq_term::rule::Rule;
use bam_code::code::Code;
use bam_code::line::Line;
use bam_code::procedure::Proc;
use bam_types::callees::Callees;
use bam_types::enter::start;
use bam_types::labels::Labels;
use bam_types::rules::step;
use bam_types::scope::Scope;
use bam_types::state::State;
use std::alloc::Global;

/// The first line of a procedure that breaks a rule. The state is used anew.
fn broken_line(
    alloc: Global,
    callees: &Callees,
    code: &Code,
    proc: &Proc,
    state: &mut State,
) -> Result<Option<Broken>, Memory>
    ensures there { IfOk result (λ found. IfSome found (IsBrokenLine proc.now.lines)) }
    ensures exact { IfOk result (λ found. found ≡ broken_proc (callee_in callees.now code.now) code.now proc.now) }
{
    let lines = proc.lines.as_slice();
    if lines.is_empty() {
        return Ok(Some(Broken {
            line: 1,
            rule: Rule::Flow,
        }));
    }
    let labels = Labels::of(alloc, lines)?;
    let scope = Scope {
        code,
        callees,
        signature: &proc.signature,
        lines,
        labels: &labels,
    };
    start(state, &proc.signature)?;
    broken_in(&scope, lines, state)
}

/// The first of the lines of a scope that breaks a rule, where the state is that at the procedure's start.
#[tactic(auto, unfolding(crate::specs::Accepts::broken_from))]
fn broken_in(scope: &Scope, lines: &[Line], state: &mut State) -> Result<Option<Broken>, Memory>
    ensures there { IfOk result (λ found. IfSome found (λ broken. IsNumberOf lines.now broken.line × (broken.rule ≢ rule.Entry))) }
    ensures exact { IfOk result (λ found. found ≡ broken_from (within_of scope.now) state.old 0 lines.now) }
{
    for (at, line) in lines.iter().enumerate() {
        if let Some(rule) = step(scope, state, at, line)? {
            return Ok(Some(Broken {
                line: at as u64 + 1,
                rule,
            }));
        }
    }
    Ok(None)
}

/// The first line of all procedures that breaks a rule.
pub fn broken_procedure(
    alloc: Global,
    callees: &Callees,
    code: &Code,
) -> Result<Option<Reject>, Memory>
    ensures there { IfOk result (λ found. IfSome found (λ reject. (reject.rule ≢ rule.Entry) × IsPlace code.now.procs reject.proc reject.line)) }
    ensures exact { IfOk result (λ found. found ≡ broken_procs (callee_in callees.now code.now) code.now 0 code.now.procs) }
{
    broken_among(alloc, callees, code, code.procs.as_slice())
}

/// The first line of these procedures that breaks a rule.
fn broken_among(
    alloc: Global,
    callees: &Callees,
    code: &Code,
    procs: &[Proc],
) -> Result<Option<Reject>, Memory>
    ensures there { IfOk result (λ found. IfSome found (λ reject. (reject.rule ≢ rule.Entry) × IsPlace procs.now reject.proc reject.line)) }
    ensures exact { IfOk result (λ found. found ≡ broken_procs (callee_in callees.now code.now) code.now 0 procs.now) }
{
    let mut state = State::new(alloc);
    for (number, proc) in procs.iter().enumerate() {
        if let Some(broken) = broken_line(alloc, callees, code, proc, &mut state)? {
            return Ok(Some(Reject {
                proc: number as u64 + 1,
                line: broken.line,
                rule: broken.rule,
            }));
        }
    }
    Ok(None)
}
