ghost use Rattle.std.specs.Prelude.{◌≡◌};
ghost use Rattle.facts_text.specs.FactsText as spelled;

use type_lattice::fact::Fact;

/// The word of a fact.
pub fn fact_word(fact: Fact) -> &'static str
    ensures { result.now ≡ spelled.fact_word fact }
{
    match fact {
        Fact::Bot => "bot",
        Fact::Out => "out",
        Fact::Full => "full",
        Fact::GroundDirect => "gdirect",
        Fact::Ground => "ground",
        Fact::Direct => "direct",
        Fact::Nonvar => "nonvar",
        Fact::Any => "any",
    }
}
