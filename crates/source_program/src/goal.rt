use aq_term::args0::Args0;
use aq_term::atom::Atom;
use aq_term::builtin::Builtin;
use aq_term::term::Term;
use sqlite_items::Boxed;

/// A goal of a body.
#[derive(Debug, Drop)]
pub enum Goal {
    /// `true`
    True,
    /// `fail`
    Fail,
    /// `!`
    Cut,
    /// `First, Second`
    And(Boxed<Goal>, Boxed<Goal>),
    /// `First ; Second`
    Or(Boxed<Goal>, Boxed<Goal>),
    /// `Condition -> Then`
    IfThen(Boxed<Goal>, Boxed<Goal>),
    /// `\+ Goal`
    Not(Boxed<Goal>),
    /// `catch(Goal, Catcher, Recovery)`
    Catch(Boxed<Goal>, Term, Boxed<Goal>),
    /// `throw(Ball)`
    Throw(Term),
    /// A built-in, with its own number of arguments.
    Builtin(Builtin, Args0),
    /// A call of a predicate by its name, with 0 to 63 arguments in an accepted program.
    Call(Atom, Args0),
}
