ghost use Rattle.std.specs.Prelude.{◌≡◌, ◌⊎◌, OnErr, length};
ghost use Rattle.type_lattice.specs.declared.fact.Fact.TheVariants as fact;

use crate::env::{ground_all, learn};
use crate::fact_list::FactList;
use crate::is_rule::is_rule;
use crate::occurrences::variables_of_all;
use aq_term::builtin::Builtin;
use aq_term::memory::Memory;
use aq_term::term::Term;
use std::alloc::Global;
use type_lattice::fact::Fact;

/// A built-in with these arguments, in which no variable is out but the X of `X is E`. After want of memory the facts are as they
/// were.
pub fn builtin_rule(
    alloc: Global,
    env: &mut FactList,
    builtin: Builtin,
    arguments: &[Term],
) -> Result<(), Memory>
    ensures len { length env.new ≡ length env.old }
    ensures err { OnErr result (env.new ≡ env.old) }
{
    match builtin {
        Builtin::Is => is_rule(alloc, env, arguments)?,
        Builtin::NumberEqual
        | Builtin::NumberNotEqual
        | Builtin::Less
        | Builtin::AtMost
        | Builtin::Greater
        | Builtin::AtLeast => comparison_rule(alloc, env, arguments)?,
        Builtin::Atom | Builtin::Integer | Builtin::Number | Builtin::Atomic => {
            learn_argument(env, arguments, 0, Fact::Ground);
        }
        Builtin::Nonvar | Builtin::Compound => learn_argument(env, arguments, 0, Fact::Nonvar),
        Builtin::Functor => functor_rule(env, arguments),
        Builtin::Arg => arg_rule(env, arguments),
        Builtin::Univ => univ_rule(env, arguments),
        Builtin::Compare | Builtin::PutChar => learn_argument(env, arguments, 0, Fact::Ground),
        Builtin::Unify
        | Builtin::NotUnify
        | Builtin::Var
        | Builtin::Identical
        | Builtin::NotIdentical
        | Builtin::TermLess
        | Builtin::TermAtMost
        | Builtin::TermGreater
        | Builtin::TermAtLeast
        | Builtin::CopyTerm
        | Builtin::Write
        | Builtin::Writeq
        | Builtin::Nl => {}
    }
    Ok(())
}

/// A comparison of numbers: both sides were evaluated.
fn comparison_rule(alloc: Global, env: &mut FactList, sides: &[Term]) -> Result<(), Memory>
    ensures len { length env.new ≡ length env.old }
    ensures err { OnErr result (env.new ≡ env.old) }
{
    let evaluated = variables_of_all(alloc, sides)?;
    ground_all(env, evaluated.as_slice());
    Ok(())
}

/// `functor(T, N, A)`
fn functor_rule(env: &mut FactList, arguments: &[Term])
    ensures { length env.new ≡ length env.old }
{
    learn_argument(env, arguments, 0, Fact::Nonvar);
    learn_argument(env, arguments, 1, Fact::Ground);
    learn_argument(env, arguments, 2, Fact::Ground);
}

/// `arg(N, T, A)`
fn arg_rule(env: &mut FactList, arguments: &[Term])
    ensures { length env.new ≡ length env.old }
{
    learn_argument(env, arguments, 0, Fact::Ground);
    learn_argument(env, arguments, 1, Fact::Nonvar);
}

/// `T =.. L`
fn univ_rule(env: &mut FactList, arguments: &[Term])
    ensures { length env.new ≡ length env.old }
{
    learn_argument(env, arguments, 0, Fact::Nonvar);
    learn_argument(env, arguments, 1, Fact::Nonvar);
}

/// Adds to the fact of the variable that is the argument of this number, from 0, what is known of it. A constant has none.
fn learn_argument(env: &mut FactList, arguments: &[Term], number: usize, known: Fact)
    requires { (known ≡ fact.Ground) ⊎ ((known ≡ fact.Nonvar) ⊎ (known ≡ fact.Any)) }
    ensures { length env.new ≡ length env.old }
{
    if let Some(Term::Var(variable)) = arguments.get(number) {
        learn(env, *variable, known);
    }
}
