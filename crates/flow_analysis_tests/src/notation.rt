use aq_term::args0::Args0;
use aq_term::atom::Atom;
use aq_term::atoms::Atoms;
use aq_term::builtin::Builtin;
use aq_term::entries::Entries;
use aq_term::entry::Entry;
use aq_term::mode::Mode;
use aq_term::modes::Modes;
use aq_term::proc_name::ProcName;
use aq_term::read_term::ReadTerm;
use aq_term::term::Term;
use kernel_ir::kernel::Kernel;
use kernel_ir::kernel_clause::KernelClause;
use kernel_ir::kernel_clauses::KernelClauses;
use kernel_ir::kernel_goal::KernelGoal;
use kernel_ir::kernel_goals::KernelGoals;
use kernel_ir::kernel_predicate::KernelPredicate;
use kernel_ir::kernel_predicates::KernelPredicates;
use prolog_reader::read::read_clause;
use prolog_tokens::scan::next_clause;
use std::alloc::Global;
use std::test::Fail;

/// The most bytes of a text, and the most goals of a clause.
const MANY: usize = 1_000_000;

/// A kernel program that was written by hand.
#[derive(Drop)]
pub struct Written {
    pub kernel: Kernel,
    pub entries: Entries,
    pub atoms: Atoms,
}

/// A predicate of a text, and its clauses so far.
#[derive(Debug, Drop)]
struct Draft {
    name: ProcName,
    barrier: bool,
    clauses: Vec<KernelClause>,
}

/// Reads kernel clauses in the syntax of Prolog. The arguments of a head are different variables. `'p/1#2/3'(X,Y,Z)` is the auxiliary
/// predicate 2 of p/1, with three arguments, and `'p/1#2/3bar'(X,Y,B)` has the barrier B as the last of them; a call with one
/// argument fewer gives the own depth. `cut_to(B)` is the cut to the barrier, and `catch(G,H)` guards the call G with the handler of
/// the call H, in which the ball is left out.
#[derive(Drop)]
pub struct Notation {
    alloc: Global,
    atoms: Atoms,
    drafts: Vec<Draft>,
    entries: Entries,
}

/// The kernel program of a text.
pub fn read_kernel(alloc: Global, text: &str) -> Result<Written, Fail> {
    let mut notation = Notation {
        alloc,
        atoms: Atoms::new(alloc)?,
        drafts: Vec::new(alloc),
        entries: Entries::new(alloc),
    };
    let terms = notation.read(text)?;
    for term in terms.as_slice() {
        notation.define(&term.term)?;
    }
    for term in terms.as_slice() {
        notation.take(term)?;
    }
    notation.finish()
}

impl Notation {
    /// The terms of a text.
    fn read(&mut self, text: &str) -> Result<Vec<ReadTerm>, Fail> {
        let text = text.as_bytes();
        let mut terms = Vec::new(self.alloc);
        let mut at = 0;
        for _ in 0..MANY {
            if at > text.len() || text.len() > MANY || self.atoms.len() > MANY {
                return Err("too long".into());
            }
            let Some(clause) = next_clause(self.alloc, text, at)? else {
                return Ok(terms);
            };
            at = clause.end;
            terms.push(read_clause(self.alloc, &clause.tokens, &mut self.atoms)?)?;
        }
        Err("too many clauses".into())
    }

    /// Notes the predicate that a clause defines.
    fn define(&mut self, term: &Term) -> Result<(), Fail> {
        let Some(head) = head_of(term) else {
            return Ok(());
        };
        let (name, barrier) = self.name_of(head)?;
        if self.place(&name).is_none() {
            self.drafts.push(Draft {
                name,
                barrier,
                clauses: Vec::new(self.alloc),
            })?;
        }
        Ok(())
    }

    fn place(&self, name: &ProcName) -> Option<usize> {
        for (place, draft) in self.drafts.as_slice().iter().enumerate() {
            if draft.name == *name {
                return Some(place);
            }
        }
        None
    }

    /// The name of the predicate that a head defines or a goal calls, and whether it has a barrier.
    fn name_of(&mut self, term: &Term) -> Result<(ProcName, bool), Fail> {
        let (atom, given) = match term {
            Term::Atom(atom) => (*atom, 0),
            Term::Compound(atom, arguments) => (*atom, arguments.len()),
            _ => return Err("no predicate".into()),
        };
        let text = String::from_str(self.alloc, self.atoms.text_or_empty(atom))?;
        let Some((source, part)) = text.as_str().split_once("#") else {
            let arity = u8::try_from(given)?;
            let name = ProcName {
                name: atom,
                arity,
                part: 0,
                width: arity,
            };
            return Ok((name, false));
        };
        let (source, arity) = source.split_once("/").ok_or("no arity")?;
        let (part, width) = part.split_once("/").ok_or("no width")?;
        let plain = width.strip_suffix("bar");
        if self.atoms.len() > MANY {
            return Err("too many names".into());
        }
        let name = ProcName {
            name: self.atoms.number(source)?,
            arity: arity.parse::<u8>()?,
            part: part.parse::<u32>()?,
            width: plain.unwrap_or(width).parse::<u8>()?,
        };
        Ok((name, plain.is_some()))
    }

    /// Takes a clause or an entry.
    fn take(&mut self, term: &ReadTerm) -> Result<(), Fail> {
        let Some(head) = head_of(&term.term) else {
            return self.take_entry(&term.term);
        };
        let (name, _) = self.name_of(head)?;
        let mut goals = Vec::new(self.alloc);
        if let Some(body) = body_of(&term.term) {
            self.take_body(body, &mut goals)?;
        }
        let clause = KernelClause {
            goals: KernelGoals::from_vec(goals),
            variables: u32::try_from(term.names.len())?,
            source: 1,
        };
        let place = self.place(&name).ok_or("not defined")?;
        match self.drafts.get_mut(place) {
            Some(draft) => draft.clauses.push(clause)?,
            None => return Err("not defined".into()),
        }
        Ok(())
    }

    fn take_entry(&mut self, term: &Term) -> Result<(), Fail> {
        let directive = only_argument(term).ok_or("no directive")?;
        let declared = only_argument(directive).ok_or("no entry")?;
        let (name, _) = self.name_of(declared)?;
        let mut modes = Modes::new(self.alloc);
        if let Term::Compound(_, arguments) = declared {
            for argument in arguments.as_slice() {
                modes.push(mode_of(argument)?)?;
            }
        }
        self.entries.push(Entry {
            name: name.name,
            arity: name.arity,
            modes,
            clause: 1,
        })?;
        Ok(())
    }

    fn take_body(&mut self, body: &Term, goals: &mut Vec<KernelGoal>) -> Result<(), Fail> {
        let mut rest = body;
        for _ in 0..MANY {
            match pair_of(Atom::COMMA, rest) {
                Some((first, others)) => {
                    self.take_goal(first, goals)?;
                    rest = others;
                }
                None => return self.take_goal(rest, goals),
            }
        }
        Err("too many goals".into())
    }

    fn take_goal(&mut self, term: &Term, goals: &mut Vec<KernelGoal>) -> Result<(), Fail> {
        let goal = match term {
            Term::Atom(Atom::TRUE) => return Ok(()),
            Term::Atom(Atom::CUT) => KernelGoal::Cut,
            Term::Atom(Atom::FAIL) => KernelGoal::Fail,
            _ => match self.special_goal(term)? {
                Some(goal) => goal,
                None => self.plain_goal(term)?,
            },
        };
        goals.push(goal)?;
        Ok(())
    }

    /// A unification, a catch, a throw or a cut to the barrier.
    fn special_goal(&mut self, term: &Term) -> Result<Option<KernelGoal>, Fail> {
        if let Some((Term::Var(variable), other)) = pair_of(Atom::UNIFIES, term) {
            return Ok(Some(KernelGoal::Unify(*variable, other.copy(self.alloc)?)));
        }
        if let Some((guarded, handler)) = pair_of(Atom::CATCH, term) {
            let (guarded_name, _) = self.name_of(guarded)?;
            let (handler_name, _) = self.name_of(handler)?;
            return Ok(Some(KernelGoal::Catch(
                guarded_name,
                self.arguments_of(guarded)?,
                handler_name,
                self.arguments_of(handler)?,
            )));
        }
        let Some(argument) = only_argument(term) else {
            return Ok(None);
        };
        let (name, _) = self.name_of(term)?;
        if name.name == Atom::THROW {
            return Ok(Some(KernelGoal::Throw(argument.copy(self.alloc)?)));
        }
        match argument {
            Term::Var(barrier) if self.atoms.text_or_empty(name.name) == "cut_to" => {
                Ok(Some(KernelGoal::CutTo(*barrier)))
            }
            _ => Ok(None),
        }
    }

    /// A built-in or a call.
    fn plain_goal(&mut self, term: &Term) -> Result<KernelGoal, Fail> {
        let (name, _) = self.name_of(term)?;
        let arguments = self.arguments_of(term)?;
        if let Some(builtin) = Builtin::of(name.name, arguments.len()) {
            return Ok(KernelGoal::Builtin(builtin, arguments));
        }
        match self.place(&name) {
            Some(_) => Ok(KernelGoal::Call(name, arguments)),
            None => Ok(KernelGoal::Undefined(name.name, arguments)),
        }
    }

    fn arguments_of(&self, term: &Term) -> Result<Args0, Fail> {
        let mut arguments = Args0::new(self.alloc);
        if let Term::Compound(_, items) = term {
            for item in items.as_slice() {
                arguments.push(item.copy(self.alloc)?)?;
            }
        }
        Ok(arguments)
    }

    fn finish(self) -> Result<Written, Fail> {
        let Notation {
            alloc,
            atoms,
            drafts,
            entries,
        } = self;
        let mut predicates = KernelPredicates::new(alloc);
        for draft in drafts {
            predicates.push(KernelPredicate {
                name: draft.name,
                barrier: draft.barrier,
                clauses: KernelClauses::from_vec(draft.clauses),
            })?;
        }
        Ok(Written {
            kernel: Kernel { predicates },
            entries,
            atoms,
        })
    }
}

/// The head of a clause, or none where the term is a directive.
fn head_of(term: &Term) -> Option<&Term> {
    if let Some((head, _)) = pair_of(Atom::IF, term) {
        return Some(head);
    }
    match term {
        Term::Compound(Atom::IF, _) => None,
        _ => Some(term),
    }
}

/// The body of a rule.
fn body_of(term: &Term) -> Option<&Term> {
    match pair_of(Atom::IF, term) {
        Some((_, body)) => Some(body),
        None => None,
    }
}

/// The arguments of a compound of this name with two of them.
fn pair_of(name: Atom, term: &Term) -> Option<(&Term, &Term)> {
    match term {
        Term::Compound(own, arguments) if *own == name => match arguments.as_slice() {
            [first, second] => Some((first, second)),
            _ => None,
        },
        _ => None,
    }
}

/// The argument of a compound with one.
fn only_argument(term: &Term) -> Option<&Term> {
    match term {
        Term::Compound(_, arguments) => match arguments.as_slice() {
            [argument] => Some(argument),
            _ => None,
        },
        _ => None,
    }
}

fn mode_of(term: &Term) -> Result<Mode, Fail> {
    match term {
        Term::Atom(Atom::GROUND) => Ok(Mode::Ground),
        Term::Atom(Atom::NONVAR) => Ok(Mode::Nonvar),
        Term::Atom(Atom::OUT) => Ok(Mode::Out),
        Term::Atom(Atom::ANY) => Ok(Mode::Any),
        _ => Err("no mode".into()),
    }
}
