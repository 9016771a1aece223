ghost use Rattle.std.specs.Prelude.{◌≡◌, ℕ, ◌+◌, ◌*◌, ◌-◌, ◌≤◌, ◌++◌, Some, None, IfOk, IsErrOf, IsSome, length, replicate, codes};
ghost use Rattle.aq_term.specs.PlainOf.{plain};
ghost use Rattle.term_meaning.specs.Plain.{Plain};
ghost use Rattle.dcg_rules.specs.Grammar as grammar;

use crate::body::BodyGoals;
use crate::build::{MOST_ARGUMENTS, binary, with_lists};
use crate::fault::DcgFault;
use crate::operand_list::{Operands, by_number};
use aq_term::atom::Atom;
use aq_term::atoms::Atoms;
use aq_term::memory::Memory;
use aq_term::names::Names;
use aq_term::read_term::ReadTerm;
use aq_term::term::Term;
use aq_term::text::Text;
use std::alloc::Global;

/// The clause that the grammar rule `Head --> Body` stands for. Its head has two more arguments, the list before what the
/// rule derives and the list behind it, and its new variables are named `_`. Its weight is eight times the rule's. A term
/// that is no grammar rule is a `Head` fault. Where head and body are both at fault, the head is answered.
pub fn translate(alloc: Global, clause: &ReadTerm, _atoms: &Atoms) -> Result<ReadTerm, DcgFault>
    ensures made { (head body : Plain) → grammar.IsRule head body (plain clause.now.term) → IfOk result (λ made. grammar.clause_of head body (length clause.now.names) ≡ Some (plain made.term, length made.names)) }
    ensures head { (head body : Plain) → grammar.IsRule head body (plain clause.now.term) → IsErrOf result DcgFault.Head → grammar.head_of head (length clause.now.names) (length clause.now.names + 1) ≡ None }
    ensures body { (head body : Plain) → grammar.IsRule head body (plain clause.now.term) → IsErrOf result DcgFault.Body → IsSome (grammar.head_of head (length clause.now.names) (length clause.now.names + 1)) × (grammar.goal_of body (length clause.now.names) (length clause.now.names + 1) (length clause.now.names + 1 + 1) ≡ None) }
    ensures names { IfOk result (λ made. (added : ℕ) × (made.names ≡ clause.now.names ++ replicate added (codes "_"))) }
    ensures weight { clause.now.weight ≤ 536870912 → IfOk result (λ made. made.weight ≡ 8 * clause.now.weight) }
{
    let Term::Compound(name, sides) = &clause.term else {
        return Err(DcgFault::Head);
    };
    match by_number(sides) {
        Operands::One(_) => Err(DcgFault::Head),
        Operands::Two(head, body) => {
            if *name != Atom::ARROW {
                return Err(DcgFault::Head);
            }
            clause_of_sides(alloc, head, body, &clause.names, clause.weight)
        }
        Operands::Others => Err(DcgFault::Head),
    }
}

/// The clause of a rule with these sides, variables and weight.
fn clause_of_sides(
    alloc: Global,
    head: &Term,
    body: &Term,
    names: &Names,
    weight: u64,
) -> Result<ReadTerm, DcgFault>
    ensures made { IfOk result (λ made. grammar.clause_of (plain head.now) (plain body.now) (length names.now) ≡ Some (plain made.term, length made.names)) }
    ensures head { IsErrOf result DcgFault.Head → grammar.head_of (plain head.now) (length names.now) (length names.now + 1) ≡ None }
    ensures body { IsErrOf result DcgFault.Body → IsSome (grammar.head_of (plain head.now) (length names.now) (length names.now + 1)) × (grammar.goal_of (plain body.now) (length names.now) (length names.now + 1) (length names.now + 1 + 1) ≡ None) }
    ensures names { IfOk result (λ made. (added : ℕ) × (made.names ≡ names.now ++ replicate added (codes "_"))) }
    ensures weight { weight ≤ 536870912 → IfOk result (λ made. made.weight ≡ 8 * weight) }
{
    let Ok(first) = u32::try_from(names.len()) else {
        return Err(DcgFault::Memory);
    };
    let mut goals = BodyGoals::new(alloc, first);
    let from = goals.fresh()?;
    let to = goals.fresh()?;
    let head = head_goal(alloc, head, from, to)?;
    let body = goals.goal(body, from, to)?;
    let term = binary(alloc, Atom::IF, head, body)?;
    let names = with_anonymous(alloc, names, goals.next)?;
    Ok(ReadTerm {
        term,
        names,
        weight: weight.saturating_mul(8),
    })
}

/// The head with the two lists as arguments.
#[tactic(auto, using(crate::proofs::GrammarLemmas::count_of_plains))]
fn head_goal(alloc: Global, head: &Term, from: u32, to: u32) -> Result<Term, DcgFault>
    ensures made { IfOk result (λ t. grammar.head_of (plain head.now) from to ≡ Some (plain t)) }
    ensures refused { IsErrOf result DcgFault.Head → grammar.head_of (plain head.now) from to ≡ None }
    ensures no_body { IsErrOf result DcgFault.Body → ⊥ }
{
    match head {
        Term::Var(_) | Term::Int(_) => Err(DcgFault::Head),
        Term::Atom(name) => Ok(binary(alloc, *name, Term::Var(from), Term::Var(to))?),
        Term::Compound(name, arguments) => {
            let count = arguments.len();
            if *name == Atom::COMMA && count == 2 {
                return Err(DcgFault::Head);
            }
            if count > MOST_ARGUMENTS {
                return Err(DcgFault::Head);
            }
            Ok(with_lists(alloc, *name, arguments.as_slice(), from, to)?)
        }
    }
}

/// The names, and `_` for each variable from their end up to `count`.
fn with_anonymous(alloc: Global, names: &Names, count: u32) -> Result<Names, Memory>
    requires { length names.now ≤ count }
    ensures { IfOk result (λ all. all ≡ names.now ++ replicate (count - length names.now) (codes "_")) }
{
    let mut all = Names::new(alloc);
    for name in names.as_slice() {
        all.push(Text::from_str(alloc, name.as_str())?)?;
    }
    for number in names.len()..count as usize {
        let _ = number;
        all.push(Text::from_str(alloc, "_")?)?;
    }
    Ok(all)
}
