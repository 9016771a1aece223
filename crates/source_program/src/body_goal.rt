ghost use Rattle.std.specs.Prelude.{◌≡◌, ◌+◌, ◌≤◌, [], ◌∷◌, Some, None, IfOk, OnOk, IsErrOf, length, map};
ghost use Rattle.aq_base.specs.declared.refusal.FormKind.{FormKind};
ghost use Rattle.aq_term.specs.PlainOf.{plain};
ghost use Rattle.term_meaning.specs.Plain.{nodes, nodes_of_all, plains};
ghost use Rattle.source_program.specs.ClauseFaults.{body_fault, compound_fault, goal_fault};
ghost use Rattle.source_program.specs.Control.{nodes_of_parts, fault_of_parts, called_in_parts};
ghost use Rattle.source_program.specs.Arguments.{called, most_called, most_called_of};
ghost use Rattle.source_program.specs.Defined.{is_control, is_builtin};

use crate::arguments::{Arguments, by_number};
use crate::form_fault::FormFault;
use crate::goal::Goal;
use aq_base::refusal::FormKind;
use aq_term::args::Args;
use aq_term::args0::Args0;
use aq_term::atom::Atom;
use aq_term::builtin::Builtin;
use aq_term::memory::Memory;
use aq_term::reserved::is_reserved;
use aq_term::term::Term;
use sqlite_items::Boxed;
use std::alloc::Global;

/// A compound of a body by its control construct, with the parts of it.
#[derive(Clone, Copy)]
pub enum Control<'a> {
    And(&'a Term, &'a Term),
    Or(&'a Term, &'a Term),
    IfThen(&'a Term, &'a Term),
    Not(&'a Term),
    Catch(&'a Term, &'a Term, &'a Term),
    Throw(&'a Term),
    /// No control construct.
    Other,
}

/// Whether the name with this many arguments is a control construct.
pub fn is_control(name: Atom, arity: usize) -> bool
    ensures { result ≡ is_control name.number arity }
{
    match arity {
        0 => matches!(name, Atom::CUT | Atom::TRUE | Atom::FAIL),
        1 => matches!(name, Atom::NOT_PROVABLE | Atom::THROW),
        2 => matches!(name, Atom::COMMA | Atom::SEMICOLON | Atom::THEN),
        3 => matches!(name, Atom::CATCH),
        _ => false,
    }
}

#[tactic(auto, using(crate::proofs::ControlLemmas::fault_of_others, crate::proofs::ControlLemmas::called_of_others))]
fn construct_of(name: Atom, arguments: &Args) -> Control<'_>
    ensures fault { compound_fault name.number (plains arguments.now) ≡ fault_of_parts result name.number (length arguments.now) }
    ensures called { most_called_of name.number (plains arguments.now) ≡ called_in_parts result name.number (length arguments.now) }
    ensures nodes { nodes_of_parts result ≤ nodes_of_all (plains arguments.now) }
{
    match by_number(arguments) {
        Arguments::One(only) => control_of_one(name, only),
        Arguments::Two(left, right) => control_of_two(name, left, right),
        Arguments::Three(goal, catcher, recovery) => match name {
            Atom::CATCH => Control::Catch(goal, catcher, recovery),
            _ => Control::Other,
        },
        Arguments::Others => Control::Other,
    }
}

fn control_of_one(name: Atom, only: &Term) -> Control<'_>
    ensures fault { compound_fault name.number (plains (plain only.now ∷ [])) ≡ fault_of_parts result name.number 1 }
    ensures called { most_called_of name.number (plains (plain only.now ∷ [])) ≡ called_in_parts result name.number 1 }
    ensures nodes { nodes_of_parts result ≤ nodes (plain only.now) }
{
    match name {
        Atom::NOT_PROVABLE => Control::Not(only),
        Atom::THROW => Control::Throw(only),
        _ => Control::Other,
    }
}

fn control_of_two<'a>(name: Atom, left: &'a Term, right: &'a Term) -> Control<'a>
    ensures fault { compound_fault name.number (plains (plain left.now ∷ plain right.now ∷ [])) ≡ fault_of_parts result name.number 2 }
    ensures called { most_called_of name.number (plains (plain left.now ∷ plain right.now ∷ [])) ≡ called_in_parts result name.number 2 }
    ensures nodes { nodes_of_parts result ≤ nodes (plain left.now) + nodes (plain right.now) }
{
    match name {
        Atom::COMMA => Control::And(left, right),
        Atom::SEMICOLON => Control::Or(left, right),
        Atom::THEN => Control::IfThen(left, right),
        _ => Control::Other,
    }
}

/// The goal that a term of a body stands for. A variable, an integer and a reserved name are no goals: `Form(Body)`. It
/// goes as deep as the term, which is at most 8,192 deep where a grammar rule was read.
#[cycle(body)]
pub fn goal_of(alloc: Global, term: &Term) -> Result<Goal, FormFault>
    ensures ok { OnOk result (body_fault (plain term.now) ≡ None) }
    ensures refused { (kind : FormKind) → IsErrOf result (FormFault.Form kind) → body_fault (plain term.now) ≡ Some kind }
{
    match term {
        Term::Var(_) | Term::Int(_) => Err(FormFault::Form(FormKind::Body)),
        Term::Atom(name) => atom_goal(alloc, *name),
        Term::Compound(name, arguments) => match construct_of(*name, arguments) {
            Control::And(first, second) => {
                let first = boxed_goal(alloc, first)?;
                let second = boxed_goal(alloc, second)?;
                Ok(Goal::And(first, second))
            }
            Control::Or(first, second) => {
                let first = boxed_goal(alloc, first)?;
                let second = boxed_goal(alloc, second)?;
                Ok(Goal::Or(first, second))
            }
            Control::IfThen(condition, then) => {
                let condition = boxed_goal(alloc, condition)?;
                let then = boxed_goal(alloc, then)?;
                Ok(Goal::IfThen(condition, then))
            }
            Control::Not(goal) => Ok(Goal::Not(boxed_goal(alloc, goal)?)),
            Control::Catch(goal, catcher, recovery) => {
                let goal = boxed_goal(alloc, goal)?;
                let recovery = boxed_goal(alloc, recovery)?;
                Ok(Goal::Catch(goal, catcher.copy(alloc)?, recovery))
            }
            Control::Throw(ball) => Ok(Goal::Throw(ball.copy(alloc)?)),
            Control::Other => plain_goal(alloc, *name, arguments.as_slice()),
        },
    }
}

#[cycle(body)]
fn boxed_goal(alloc: Global, term: &Term) -> Result<Boxed<Goal>, FormFault>
    ensures ok { OnOk result (body_fault (plain term.now) ≡ None) }
    ensures refused { (kind : FormKind) → IsErrOf result (FormFault.Form kind) → body_fault (plain term.now) ≡ Some kind }
{
    let goal = goal_of(alloc, term)?;
    Ok(Boxed::new(alloc, goal)?)
}

/// A goal without arguments.
fn atom_goal(alloc: Global, name: Atom) -> Result<Goal, FormFault>
    ensures ok { OnOk result (goal_fault name.number 0 ≡ None) }
    ensures refused { (kind : FormKind) → IsErrOf result (FormFault.Form kind) → goal_fault name.number 0 ≡ Some kind }
{
    match name {
        Atom::CUT => Ok(Goal::Cut),
        Atom::TRUE => Ok(Goal::True),
        Atom::FAIL => Ok(Goal::Fail),
        _ => plain_goal(alloc, name, &[]),
    }
}

/// A built-in or a call.
fn plain_goal(alloc: Global, name: Atom, arguments: &[Term]) -> Result<Goal, FormFault>
    ensures ok { OnOk result (goal_fault name.number (length arguments.now) ≡ None) }
    ensures refused { (kind : FormKind) → IsErrOf result (FormFault.Form kind) → goal_fault name.number (length arguments.now) ≡ Some kind }
{
    let arity = arguments.len();
    if is_reserved(name, arity) {
        return Err(FormFault::Form(FormKind::Body));
    }
    let copies = copies_of(alloc, arguments)?;
    match Builtin::of(name, arity) {
        Some(builtin) => Ok(Goal::Builtin(builtin, copies)),
        None => Ok(Goal::Call(name, copies)),
    }
}

/// The most arguments of a call in a body. It goes as deep as the term, which is at most 8,192 deep where a grammar rule was
/// read.
pub fn most_called(term: &Term) -> usize
    ensures { result ≡ most_called (plain term.now) }
{
    match term {
        Term::Var(_) | Term::Int(_) | Term::Atom(_) => 0,
        Term::Compound(name, arguments) => match construct_of(*name, arguments) {
            Control::And(first, second) => most_called(first).max(most_called(second)),
            Control::Or(first, second) => most_called(first).max(most_called(second)),
            Control::IfThen(condition, then) => most_called(condition).max(most_called(then)),
            Control::Not(goal) => most_called(goal),
            Control::Catch(goal, _, recovery) => most_called(goal).max(most_called(recovery)),
            Control::Throw(_) => 0,
            Control::Other => called(*name, arguments.len()),
        },
    }
}

/// The arguments of a call, or 0 for a built-in.
fn called(name: Atom, arity: usize) -> usize
    ensures { result ≡ called name.number arity }
{
    if is_builtin(name, arity) { 0 } else { arity }
}

/// Whether a built-in has this name and this many arguments.
pub fn is_builtin(name: Atom, arity: usize) -> bool
    ensures { result ≡ is_builtin name.number arity }
{
    match Builtin::of(name, arity) {
        Some(_) => true,
        None => false,
    }
}

/// Copies of the terms.
pub fn copies_of(alloc: Global, terms: &[Term]) -> Result<Args0, Memory>
    ensures { IfOk result (λ copies. copies ≡ map plain terms.now) }
{
    let mut copies = Vec::with_capacity(alloc, terms.len())?;
    for term in terms {
        copies.push(term.copy(alloc)?)?;
    }
    Ok(Args0::from_vec(copies))
}
