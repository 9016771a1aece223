ghost use Rattle.std.specs.Prelude.{◌≡◌};
ghost use Rattle.flow_equations.specs.FactRules.{seen};

use type_lattice::fact::Fact;

/// The fact of a variable that is put into a cell: one that was out may be anything from now on.
pub fn seen(fact: Fact) -> Fact
    ensures { result ≡ seen fact }
{
    match fact {
        Fact::Out => Fact::Any,
        other => other,
    }
}
