ghost use Rattle.std.specs.Prelude.{◌≡◌};
ghost use Rattle.flow_equations.specs.FactRules.{argument_after};

use crate::seen::seen;
use type_lattice::fact::{Fact, strip, with};

/// The fact of a call's argument behind the call, by the callee's facts of that argument at its calls and at its successes. An argument
/// that is out where the callee takes it so is what the callee makes of it. Of another, what is known of its term is added.
pub fn argument_after(argument: Fact, call: Fact, success: Fact) -> Fact
    ensures { result ≡ argument_after argument call success }
{
    match (argument, call) {
        (Fact::Out, Fact::Out) => success,
        _ => with(seen(argument), strip(success)),
    }
}
