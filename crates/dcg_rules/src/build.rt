ghost use Rattle.std.specs.Prelude.{◌≡◌, ◌+◌, ◌<◌, IfOk, length, map};
ghost use Rattle.aq_term.specs.PlainOf.{plain};
ghost use Rattle.term_meaning.specs.Plain.{compound, plains};
ghost use Rattle.dcg_rules.specs.Grammar as grammar;

use aq_term::args::Args;
use aq_term::atom::Atom;
use aq_term::memory::Memory;
use aq_term::term::Term;
use std::alloc::Global;

/// The most arguments of a nonterminal: two more are added to them.
pub const MOST_ARGUMENTS: usize = 253;

/// `name(argument)`.
pub fn unary(alloc: Global, name: Atom, argument: Term) -> Result<Term, Memory>
    ensures { IfOk result (λ t. plain t ≡ compound name.number (grammar.one (plain argument))) }
{
    let mut items = Vec::with_capacity(alloc, 1)?;
    items.push(argument)?;
    Ok(Term::Compound(name, Args::from_vec(items)))
}

/// `name(left, right)`.
pub fn binary(alloc: Global, name: Atom, left: Term, right: Term) -> Result<Term, Memory>
    ensures { IfOk result (λ t. plain t ≡ compound name.number (grammar.two (plain left) (plain right))) }
{
    let mut items = Vec::with_capacity(alloc, 2)?;
    items.push(left)?;
    items.push(right)?;
    Ok(Term::Compound(name, Args::from_vec(items)))
}

/// `from = behind`: nothing is between the two lists.
pub fn same_list(alloc: Global, from: u32, behind: Term) -> Result<Term, Memory>
    ensures { IfOk result (λ t. plain t ≡ grammar.same_list from (plain behind)) }
{
    binary(alloc, Atom::UNIFIES, Term::Var(from), behind)
}

/// `goal, from = to`: the goal takes nothing off the list.
pub fn keeping(alloc: Global, goal: Term, from: u32, to: u32) -> Result<Term, Memory>
    ensures { IfOk result (λ t. plain t ≡ grammar.keeping (plain goal) from to) }
{
    let same = same_list(alloc, from, Term::Var(to))?;
    binary(alloc, Atom::COMMA, goal, same)
}

/// `name(arguments.., from, to)`.
#[tactic(auto, using(crate::proofs::GrammarLemmas::with_lists_of_items))]
pub fn with_lists(
    alloc: Global,
    name: Atom,
    arguments: &[Term],
    from: u32,
    to: u32,
) -> Result<Term, Memory>
    requires { length arguments.now < 1000 }
    ensures { IfOk result (λ t. plain t ≡ compound name.number (grammar.with_lists (plains (map plain arguments.now)) from to)) }
{
    let mut items = Vec::with_capacity(alloc, arguments.len() + 2)?;
    for argument in arguments {
        items.push(argument.copy(alloc)?)?;
    }
    items.push(Term::Var(from))?;
    items.push(Term::Var(to))?;
    Ok(Term::Compound(name, Args::from_vec(items)))
}
