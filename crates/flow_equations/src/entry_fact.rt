ghost use Rattle.std.specs.Prelude.{◌≡◌};
ghost use Rattle.flow_equations.specs.FactRules.{entry_of};

use aq_term::mode::Mode;
use type_lattice::fact::Fact;

/// The fact of a query's argument of this mode.
pub fn entry_fact(mode: Mode) -> Fact
    ensures { result ≡ entry_of mode }
{
    match mode {
        Mode::Ground => Fact::Full,
        Mode::Nonvar => Fact::Direct,
        Mode::Out => Fact::Out,
        Mode::Any => Fact::Any,
    }
}
