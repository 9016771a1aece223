ghost use Rattle.std.specs.Prelude.{◌≡◌};
ghost use Rattle.determinism.specs.Keys.{key_of};

use aq_term::atom::Atom;
use aq_term::functor::Functor;
use aq_term::term::Term;

/// What a term that is no variable is at its root. Terms with different keys do not unify.
#[derive(Clone, Copy, Debug, PartialEq, Eq)]
pub enum Key {
    Int(i64),
    Atom(Atom),
    Functor(Functor),
}

impl Key {
    /// The key of a term, or `None` for a variable.
    pub fn of_term(term: &Term) -> Option<Key>
        ensures { result ≡ key_of term.now }
    {
        match term {
            Term::Var(_) => None,
            Term::Int(value) => Some(Key::Int(*value)),
            Term::Atom(name) => Some(Key::Atom(*name)),
            Term::Compound(name, arguments) => Some(Key::Functor(Functor {
                name: *name,
                arity: u8::try_from(arguments.len()).unwrap_or(u8::MAX),
            })),
        }
    }
}
