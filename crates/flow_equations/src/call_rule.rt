ghost use Rattle.std.specs.Prelude.{◌≡◌, length};

use crate::argument_rule::argument_after;
use crate::fact_list::FactList;
use crate::predicate_facts::PredicateFacts;
use crate::progress::Progress;
use aq_term::term::Term;

/// A call with these arguments of a predicate with these facts, in which no variable is out that occurs twice. A barrier that is
/// handed on is an argument more than there are facts.
pub fn call_rule(env: &mut FactList, arguments: &[Term], callee: &PredicateFacts) -> Progress
    ensures { length env.new ≡ length env.old }
{
    if callee.never_succeeds() {
        return Progress::Ends;
    }
    for (place, argument) in arguments.iter().enumerate() {
        take_argument(env, argument, place, callee);
    }
    Progress::GoesOn
}

/// The argument at this place. Of a constant there is nothing to note.
fn take_argument(env: &mut FactList, argument: &Term, place: usize, callee: &PredicateFacts)
    ensures { length env.new ≡ length env.old }
{
    let Term::Var(variable) = argument else {
        return;
    };
    let Some(call) = callee.call.as_slice().get(place) else {
        return;
    };
    let Some(success) = callee.success.as_slice().get(place) else {
        return;
    };
    let fact = argument_after(env.fact(*variable), *call, *success);
    env.set(*variable, fact);
}
