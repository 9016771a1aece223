ghost use Rattle.std.specs.Prelude.{◌≡◌, ℕ, ◌+◌, Some, None, IfOk, OnOk, IsErrOf, length, true, false};
ghost use Rattle.aq_base.specs.declared.refusal.FormKind.{FormKind};
ghost use Rattle.aq_term.specs.PlainOf.{plain};
ghost use Rattle.term_meaning.specs.Plain.{Plain, compound, plains};
ghost use Rattle.dcg_rules.specs.Grammar.{IsRule};
ghost use Rattle.source_program.specs.Arguments.{arity, clause_arguments, grammar_arguments, rule_arguments};
ghost use Rattle.source_program.specs.ClauseFaults.{rule_fault, head_fault, clause_fault, grammar_fault, form_fault, directive_fault, target_fault, are_modes, mode_of};
ghost use Rattle.source_program.specs.Defined.{may_be_defined};
ghost use Rattle.source_program.specs.Forms.{HasModes, IsFormOf};
ghost use Rattle.source_program.specs.Keys.{HasKeys, term_key, clause_key, grammar_key, directive_key, IsEntryWith, IsClauseWith};

use crate::arguments::{Arguments, by_number};
use crate::body_goal::{copies_of, goal_of, is_builtin, is_control, most_called};
use crate::form_fault::FormFault;
use crate::goal::Goal;
use crate::source_clause::SourceClause;
use aq_base::refusal::FormKind;
use aq_term::args::Args;
use aq_term::args0::Args0;
use aq_term::atom::Atom;
use aq_term::atoms::Atoms;
use aq_term::entry::Entry;
use aq_term::memory::Memory;
use aq_term::mode::Mode;
use aq_term::modes::Modes;
use aq_term::read_term::ReadTerm;
use aq_term::reserved::is_reserved;
use aq_term::term::Term;
use dcg_rules::translate;
use std::alloc::Global;

/// A clause of the predicate of this name. The predicate has as many arguments as the clause's head.
#[derive(Debug, Drop)]
pub struct NamedClause {
    pub name: Atom,
    pub clause: SourceClause,
}

/// What a clause of a text is.
#[derive(Debug, Drop)]
pub enum ClauseForm {
    /// The directive `:- entry(..)`.
    Entry(Entry),
    /// A fact, a rule, or a grammar rule as the rule that it stands for.
    Clause(NamedClause),
}

/// The form of the clause of this number. A term that is no clause of the language is the fault of its directive, of its
/// head or of its body, and the head is tested before the body.
#[tactic(auto, using(crate::proofs::ControlLemmas::form_fault_of_others, crate::proofs::ControlLemmas::defined_key_of_others, crate::proofs::ControlLemmas::entry_key_of_others, crate::proofs::ControlLemmas::text_arguments_of_others))]
pub fn clause_form(
    alloc: Global,
    read: &ReadTerm,
    atoms: &Atoms,
    number: u64,
) -> Result<ClauseForm, FormFault>
    ensures ok { OnOk result (form_fault (length read.now.names) (plain read.now.term) ≡ None) }
    ensures refused { (kind : FormKind) → IsErrOf result (FormFault.Form kind) → form_fault (length read.now.names) (plain read.now.term) ≡ Some kind }
    ensures keys { IfOk result (HasKeys (length read.now.names) (plain read.now.term)) }
    ensures form { IfOk result (IsFormOf number) }
{
    let Term::Compound(name, arguments) = &read.term else {
        return plain_form(alloc, read, number);
    };
    match by_number(arguments) {
        Arguments::One(directive) => match *name {
            Atom::IF => entry_form(alloc, directive, number),
            _ => plain_form(alloc, read, number),
        },
        Arguments::Two(_, _) => match *name {
            Atom::ARROW => rule_form(alloc, read, atoms, number),
            _ => plain_form(alloc, read, number),
        },
        Arguments::Three(_, _, _) => plain_form(alloc, read, number),
        Arguments::Others => plain_form(alloc, read, number),
    }
}

/// A directive.
fn entry_form(alloc: Global, directive: &Term, number: u64) -> Result<ClauseForm, FormFault>
    ensures ok { OnOk result (directive_fault (plain directive.now) ≡ None) }
    ensures refused { (kind : FormKind) → IsErrOf result (FormFault.Form kind) → directive_fault (plain directive.now) ≡ Some kind }
    ensures key { IfOk result (IsEntryWith (directive_key (plain directive.now))) }
    ensures form { IfOk result (IsFormOf number) }
{
    let entry = entry_of(alloc, directive, number)?;
    Ok(ClauseForm::Entry(entry))
}

/// A rule or a fact.
fn plain_form(alloc: Global, read: &ReadTerm, number: u64) -> Result<ClauseForm, FormFault>
    ensures ok { OnOk result (clause_fault (plain read.now.term) ≡ None) }
    ensures refused { (kind : FormKind) → IsErrOf result (FormFault.Form kind) → clause_fault (plain read.now.term) ≡ Some kind }
    ensures key { IfOk result (IsClauseWith (clause_key (plain read.now.term)) (clause_arguments (plain read.now.term))) }
    ensures form { IfOk result (IsFormOf number) }
{
    let clause = named_clause(alloc, read, number)?;
    Ok(ClauseForm::Clause(clause))
}

/// A grammar rule, as the rule that it stands for.
fn rule_form(
    alloc: Global,
    read: &ReadTerm,
    atoms: &Atoms,
    number: u64,
) -> Result<ClauseForm, FormFault>
    ensures ok { (head body : Plain) → IsRule head body (plain read.now.term) → OnOk result (grammar_fault (length read.now.names) head body ≡ None) }
    ensures refused { (head body : Plain) (kind : FormKind) → IsRule head body (plain read.now.term) → IsErrOf result (FormFault.Form kind) → grammar_fault (length read.now.names) head body ≡ Some kind }
    ensures key { (head body : Plain) → IsRule head body (plain read.now.term) → IfOk result (IsClauseWith (grammar_key (length read.now.names) head) (grammar_arguments (length read.now.names) head body)) }
    ensures form { IfOk result (IsFormOf number) }
{
    let made = translate(alloc, read, atoms)?;
    let clause = named_clause(alloc, &made, number)?;
    Ok(ClauseForm::Clause(clause))
}

/// A rule or a fact.
fn named_clause(alloc: Global, read: &ReadTerm, number: u64) -> Result<NamedClause, FormFault>
    ensures ok { OnOk result (clause_fault (plain read.now.term) ≡ None) }
    ensures refused { (kind : FormKind) → IsErrOf result (FormFault.Form kind) → clause_fault (plain read.now.term) ≡ Some kind }
    ensures key { IfOk result (λ named. clause_key (plain read.now.term) ≡ Some (named.name.number, length named.clause.head)) }
    ensures arguments { IfOk result (λ named. clause_arguments (plain read.now.term) ≡ named.clause.most_arguments) }
    ensures number { IfOk result (λ named. named.clause.number ≡ number) }
{
    let Ok(variables) = u32::try_from(read.names.len()) else {
        return Err(FormFault::Memory);
    };
    let parts = parts_of(alloc, &read.term)?;
    Ok(NamedClause {
        name: parts.name,
        clause: SourceClause {
            head: parts.head,
            body: parts.body,
            most_arguments: parts.most_arguments,
            variables,
            number,
            weight: read.weight,
        },
    })
}

/// The parts of a rule or a fact: the name of the head and its arguments, the body, and the most arguments of the head and of a
/// call.
#[derive(Drop)]
struct ClauseParts {
    name: Atom,
    head: Args0,
    body: Goal,
    most_arguments: usize,
}

/// The parts of a clause.
#[tactic(auto, using(crate::proofs::ControlLemmas::clause_fault_of_others, crate::proofs::ControlLemmas::clause_key_of_others, crate::proofs::ControlLemmas::clause_arguments_of_others))]
fn parts_of(alloc: Global, term: &Term) -> Result<ClauseParts, FormFault>
    ensures ok { OnOk result (clause_fault (plain term.now) ≡ None) }
    ensures refused { (kind : FormKind) → IsErrOf result (FormFault.Form kind) → clause_fault (plain term.now) ≡ Some kind }
    ensures key { IfOk result (λ parts. clause_key (plain term.now) ≡ Some (parts.name.number, length parts.head)) }
    ensures arguments { IfOk result (λ parts. clause_arguments (plain term.now) ≡ parts.most_arguments) }
{
    let Term::Compound(name, arguments) = term else {
        return fact(alloc, term);
    };
    match by_number(arguments) {
        Arguments::Two(head, body) => match *name {
            Atom::IF => rule(alloc, head, body),
            _ => fact(alloc, term),
        },
        Arguments::One(_) => fact(alloc, term),
        Arguments::Three(_, _, _) => fact(alloc, term),
        Arguments::Others => fact(alloc, term),
    }
}

fn rule(alloc: Global, head: &Term, body: &Term) -> Result<ClauseParts, FormFault>
    ensures ok { OnOk result (rule_fault (plain head.now) (plain body.now) ≡ None) }
    ensures refused { (kind : FormKind) → IsErrOf result (FormFault.Form kind) → rule_fault (plain head.now) (plain body.now) ≡ Some kind }
    ensures key { IfOk result (λ parts. term_key (plain head.now) ≡ Some (parts.name.number, length parts.head)) }
    ensures arguments { IfOk result (λ parts. rule_arguments (plain head.now) (plain body.now) ≡ parts.most_arguments) }
{
    let (name, head) = head_of(alloc, head)?;
    let goal = goal_of(alloc, body)?;
    let most_arguments = head.len().max(most_called(body));
    Ok(ClauseParts {
        name,
        head,
        body: goal,
        most_arguments,
    })
}

fn fact(alloc: Global, term: &Term) -> Result<ClauseParts, FormFault>
    ensures ok { OnOk result (head_fault (plain term.now) ≡ None) }
    ensures refused { (kind : FormKind) → IsErrOf result (FormFault.Form kind) → head_fault (plain term.now) ≡ Some kind }
    ensures key { IfOk result (λ parts. term_key (plain term.now) ≡ Some (parts.name.number, length parts.head)) }
    ensures arguments { IfOk result (λ parts. arity (plain term.now) ≡ parts.most_arguments) }
{
    let (name, head) = head_of(alloc, term)?;
    let most_arguments = head.len();
    Ok(ClauseParts {
        name,
        head,
        body: Goal::True,
        most_arguments,
    })
}

/// The name and the arguments of a head.
#[tactic(auto, using(crate::proofs::ControlLemmas::count_of_plains))]
fn head_of(alloc: Global, head: &Term) -> Result<(Atom, Args0), FormFault>
    ensures ok { OnOk result (head_fault (plain head.now) ≡ None) }
    ensures refused { (kind : FormKind) → IsErrOf result (FormFault.Form kind) → head_fault (plain head.now) ≡ Some kind }
    ensures key { IfOk result (λ made. term_key (plain head.now) ≡ Some (made.0.number, length made.1)) }
    ensures arguments { IfOk result (λ made. arity (plain head.now) ≡ length made.1) }
{
    match head {
        Term::Var(_) | Term::Int(_) => Err(FormFault::Form(FormKind::Head)),
        Term::Atom(name) => {
            if !may_be_defined(*name, 0) {
                return Err(FormFault::Form(FormKind::Head));
            }
            Ok((*name, Args0::new(alloc)))
        }
        Term::Compound(name, arguments) => {
            if !may_be_defined(*name, arguments.len()) {
                return Err(FormFault::Form(FormKind::Head));
            }
            Ok((*name, copies_of(alloc, arguments.as_slice())?))
        }
    }
}

/// Whether a program may have a predicate of this name with this many arguments.
fn may_be_defined(name: Atom, arity: usize) -> bool
    ensures { result ≡ may_be_defined name.number arity }
{
    !is_control(name, arity) && !is_reserved(name, arity) && !is_builtin(name, arity)
}

/// The entry that a directive declares.
#[tactic(auto, using(crate::proofs::ControlLemmas::entry_fault_of_others))]
fn entry_of(alloc: Global, directive: &Term, number: u64) -> Result<Entry, FormFault>
    ensures ok { OnOk result (directive_fault (plain directive.now) ≡ None) }
    ensures refused { (kind : FormKind) → IsErrOf result (FormFault.Form kind) → directive_fault (plain directive.now) ≡ Some kind }
    ensures key { IfOk result (λ entry. directive_key (plain directive.now) ≡ Some (entry.name.number, entry.arity)) }
    ensures entry { IfOk result (λ entry. (entry.clause ≡ number) × HasModes entry) }
{
    let Term::Compound(name, arguments) = directive else {
        return Err(FormFault::Form(FormKind::Directive));
    };
    match by_number(arguments) {
        Arguments::One(target) => match *name {
            Atom::ENTRY => entry_for(alloc, target, number),
            _ => Err(FormFault::Form(FormKind::Directive)),
        },
        Arguments::Two(_, _) => Err(FormFault::Form(FormKind::Directive)),
        Arguments::Three(_, _, _) => Err(FormFault::Form(FormKind::Directive)),
        Arguments::Others => Err(FormFault::Form(FormKind::Directive)),
    }
}

/// The entry for this predicate, whose arguments are modes.
fn entry_for(alloc: Global, target: &Term, number: u64) -> Result<Entry, FormFault>
    ensures ok { OnOk result (target_fault (plain target.now) ≡ None) }
    ensures refused { (kind : FormKind) → IsErrOf result (FormFault.Form kind) → target_fault (plain target.now) ≡ Some kind }
    ensures key { IfOk result (λ entry. term_key (plain target.now) ≡ Some (entry.name.number, entry.arity)) }
    ensures entry { IfOk result (λ entry. (entry.clause ≡ number) × HasModes entry) }
{
    match target {
        Term::Var(_) | Term::Int(_) => Err(FormFault::Form(FormKind::Directive)),
        Term::Atom(name) => Ok(Entry {
            name: *name,
            arity: 0,
            modes: Modes::new(alloc),
            clause: number,
        }),
        Term::Compound(name, arguments) => { entry_with_modes(alloc, *name, arguments, number) }
    }
}

#[tactic(auto, using(crate::proofs::ControlLemmas::count_of_plains))]
fn entry_with_modes(
    alloc: Global,
    name: Atom,
    arguments: &Args,
    number: u64,
) -> Result<Entry, FormFault>
    ensures ok { OnOk result (target_fault (compound name.number (plains arguments.now)) ≡ None) }
    ensures refused { (kind : FormKind) → IsErrOf result (FormFault.Form kind) → target_fault (compound name.number (plains arguments.now)) ≡ Some kind }
    ensures key { IfOk result (λ entry. term_key (compound name.number (plains arguments.now)) ≡ Some (entry.name.number, entry.arity)) }
    ensures entry { IfOk result (λ entry. (entry.clause ≡ number) × HasModes entry) }
{
    let Ok(arity) = u8::try_from(arguments.len()) else {
        return Err(FormFault::Form(FormKind::Directive));
    };
    let modes = modes_of(alloc, arguments)?;
    Ok(Entry {
        name,
        arity,
        modes,
        clause: number,
    })
}

/// The modes that the arguments name.
fn modes_of(alloc: Global, arguments: &Args) -> Result<Modes, FormFault>
    ensures ok { OnOk result (are_modes (plains arguments.now) ≡ true) }
    ensures refused { (kind : FormKind) → IsErrOf result (FormFault.Form kind) → (kind ≡ FormKind.Directive) × (are_modes (plains arguments.now) ≡ false) }
    ensures length { IfOk result (λ modes. length modes ≡ length arguments.now) }
{
    let mut modes = Modes::new(alloc);
    for argument in arguments.as_slice() {
        let Some(mode) = mode_of(argument) else {
            return Err(FormFault::Form(FormKind::Directive));
        };
        modes.push(mode)?;
    }
    Ok(modes)
}

/// The mode of this name.
fn mode_of(argument: &Term) -> Option<Mode>
    ensures { result ≡ mode_of (plain argument.now) }
{
    let Term::Atom(name) = argument else {
        return None;
    };
    match *name {
        Atom::GROUND => Some(Mode::Ground),
        Atom::NONVAR => Some(Mode::Nonvar),
        Atom::OUT => Some(Mode::Out),
        Atom::ANY => Some(Mode::Any),
        _ => None,
    }
}
