ghost use Rattle.std.specs.Prelude.{◌≡◌, ◌⊎◌};
ghost use Rattle.type_lattice.specs.Facts.{below, join, meet, strip, with};

/// What is so of a term, and of the word that stands for it.
#[derive(Clone, Copy, Debug, PartialEq, Eq, Default)]
pub enum Fact {
    /// Nothing is so: no run comes here.
    Bot,
    /// The term is an unbound variable that is in no other argument of the call. No word is passed.
    Out,
    /// The term is ground. No reference is reachable from the word, and it is none.
    Full,
    /// The term is ground. The word is no reference.
    GroundDirect,
    /// The term is ground.
    Ground,
    /// The term is no variable. The word is no reference.
    Direct,
    /// The term is no variable.
    Nonvar,
    /// The term is any.
    #[default]
    Any,
}

/// The least fact above both.
pub fn join(a: Fact, b: Fact) -> Fact
    ensures { result ≡ join a b }
{
    match (a, b) {
        (Fact::Bot, other) | (other, Fact::Bot) => other,
        (Fact::Ground, Fact::Direct) | (Fact::Direct, Fact::Ground) => Fact::Nonvar,
        _ if below(a, b) => b,
        _ if below(b, a) => a,
        _ => Fact::Any,
    }
}

/// The greatest fact below both.
pub fn meet(a: Fact, b: Fact) -> Fact
    ensures { result ≡ meet a b }
{
    match (a, b) {
        (Fact::Any, other) | (other, Fact::Any) => other,
        (Fact::Ground, Fact::Direct) | (Fact::Direct, Fact::Ground) => Fact::GroundDirect,
        _ if below(a, b) => a,
        _ if below(b, a) => b,
        _ => Fact::Bot,
    }
}

/// Whether what has the first fact has the second.
pub fn below(a: Fact, b: Fact) -> bool
    ensures { result ≡ below a b }
{
    match a {
        Fact::Bot => true,
        Fact::Out => matches!(b, Fact::Out | Fact::Any),
        Fact::Full => !matches!(b, Fact::Bot | Fact::Out),
        Fact::GroundDirect => !matches!(b, Fact::Bot | Fact::Out | Fact::Full),
        Fact::Ground => matches!(b, Fact::Ground | Fact::Nonvar | Fact::Any),
        Fact::Direct => matches!(b, Fact::Direct | Fact::Nonvar | Fact::Any),
        Fact::Nonvar => matches!(b, Fact::Nonvar | Fact::Any),
        Fact::Any => matches!(b, Fact::Any),
    }
}

/// What a fact says of the term alone: `Ground`, `Nonvar` or `Any`.
pub fn strip(a: Fact) -> Fact
    ensures { result ≡ strip a }
{
    match a {
        Fact::Bot | Fact::Full | Fact::GroundDirect | Fact::Ground => Fact::Ground,
        Fact::Direct | Fact::Nonvar => Fact::Nonvar,
        Fact::Out | Fact::Any => Fact::Any,
    }
}

/// The fact of a term of which `b` is known besides, which is `Ground`, `Nonvar` or `Any`.
pub fn with(a: Fact, b: Fact) -> Fact
    requires { (b ≡ Fact.Ground) ⊎ ((b ≡ Fact.Nonvar) ⊎ (b ≡ Fact.Any)) }
    ensures { result ≡ with a b }
{
    match (a, b) {
        (Fact::Out | Fact::Any, known) => known,
        (Fact::Nonvar, Fact::Ground) => Fact::Ground,
        (Fact::Direct, Fact::Ground) => Fact::GroundDirect,
        _ => a,
    }
}
