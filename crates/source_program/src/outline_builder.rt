use crate::goal::Goal;
use crate::kernel_outline::{AuxiliaryKind, Item, ItemKind, KernelOutline};
use crate::source_clause::SourceClause;
use aq_term::args0::Args0;
use aq_term::atom::Atom;
use aq_term::builtin::Builtin;
use aq_term::memory::Memory;
use aq_term::term::Term;
use std::alloc::Global;

/// The outline of a clause as it is made.
#[derive(Drop)]
pub struct OutlineBuilder<'a> {
    alloc: Global,
    items: Vec<Item<'a>>,
    occurrences: Vec<u32>,
    text: Vec<u32>,
    /// How many groups are open.
    depth: usize,
    /// The first number that no variable has.
    next: u32,
    /// Whether a cut of the present clause was met since the present group was opened.
    cuts: bool,
}

/// A group whose items are not all there.
#[derive(Clone, Copy, Drop)]
struct OpenGroup {
    at: usize,
    /// Whether the group around it had a cut before.
    cuts: bool,
}

/// The outline of a clause.
pub fn outline_of<'a>(
    alloc: Global,
    clause: &'a SourceClause,
) -> Result<KernelOutline<'a>, Memory> {
    let mut builder = OutlineBuilder {
        alloc,
        items: Vec::new(alloc),
        occurrences: Vec::new(alloc),
        text: Vec::new(alloc),
        depth: 0,
        next: clause.variables,
        cuts: false,
    };
    let open = builder.open(ItemKind::Clause)?;
    let head = builder.head(&clause.head, clause.variables)?;
    builder.goal(&clause.body)?;
    builder.close(open);
    Ok(KernelOutline {
        head,
        items: builder.items,
        occurrences: builder.occurrences,
        text: builder.text,
        variables: builder.next as usize,
    })
}

impl<'a> OutlineBuilder<'a> {
    /// A new variable. More variables than a `u32` can number are want of memory.
    fn fresh(&mut self) -> Result<u32, Memory> {
        let number = self.next;
        let Some(next) = number.checked_add(1) else {
            return Err(Memory);
        };
        self.next = next;
        Ok(number)
    }

    /// The arguments of the head. A variable that was not met before in the head is the argument itself; for another
    /// argument there is a new variable, and the goal that unifies it with the argument.
    fn head(&mut self, arguments: &'a Args0, variables: u32) -> Result<Vec<u32>, Memory> {
        let mut head = Vec::with_capacity(self.alloc, arguments.len())?;
        let mut met = vec![in self.alloc; false; variables as usize]?;
        for argument in arguments.as_slice() {
            let variable = self.head_argument(argument, &mut met)?;
            head.push(variable)?;
        }
        Ok(head)
    }

    fn head_argument(&mut self, argument: &'a Term, met: &mut Vec<bool>) -> Result<u32, Memory> {
        if let Term::Var(number) = argument {
            if !is_met(met, *number) {
                meet(met, *number);
                return Ok(*number);
            }
        }
        let variable = self.fresh()?;
        let first = self.occurrences.len();
        self.unify(variable, argument)?;
        if let Some(new) = self.occurrences.get(first..) {
            for number in new {
                meet(met, *number);
            }
        }
        Ok(variable)
    }

    /// Puts the items of a goal at the end. It goes as deep as the goal, which is at most 8,192 deep where it was read.
    #[cycle(outline)]
    fn goal(&mut self, goal: &'a Goal) -> Result<(), Memory> {
        match goal {
            Goal::True => Ok(()),
            Goal::Fail => self.put_fail(),
            Goal::Cut => self.put_cut(),
            Goal::And(first, second) => {
                self.goal(first.get())?;
                self.goal(second.get())
            }
            Goal::Or(first, others) => {
                let open = self.open(ItemKind::Auxiliary(AuxiliaryKind::Construct))?;
                self.alternatives(first.get(), others.get())?;
                self.close(open);
                Ok(())
            }
            Goal::IfThen(condition, then) => {
                let open = self.open(ItemKind::Auxiliary(AuxiliaryKind::Construct))?;
                self.if_then(condition.get(), then.get())?;
                self.close(open);
                Ok(())
            }
            Goal::Not(negated) => self.negation(negated.get()),
            Goal::Catch(guarded, catcher, recovery) => {
                self.catch(guarded.get(), catcher, recovery.get())
            }
            Goal::Throw(ball) => self.throw(ball),
            Goal::Builtin(builtin, arguments) => self.builtin(*builtin, arguments.as_slice()),
            Goal::Call(name, arguments) => self.call(*name, arguments.as_slice()),
        }
    }

    /// The clauses of a chain of `;`, whose right sides are alternatives of the same predicate.
    #[cycle(outline)]
    fn alternatives(&mut self, first: &'a Goal, others: &'a Goal) -> Result<(), Memory> {
        self.alternative(first)?;
        match others {
            Goal::Or(second, rest) => self.alternatives(second.get(), rest.get()),
            last => self.alternative(last),
        }
    }

    #[cycle(outline)]
    fn alternative(&mut self, goal: &'a Goal) -> Result<(), Memory> {
        match goal {
            Goal::IfThen(condition, then) => self.if_then(condition.get(), then.get()),
            other => {
                let open = self.open(ItemKind::Clause)?;
                self.goal(other)?;
                self.close(open);
                Ok(())
            }
        }
    }

    /// The clause of a condition: it, a cut, and what follows.
    #[cycle(outline)]
    fn if_then(&mut self, condition: &'a Goal, then: &'a Goal) -> Result<(), Memory> {
        let open = self.open(ItemKind::Clause)?;
        self.local(condition)?;
        self.put_commit()?;
        self.goal(then)?;
        self.close(open);
        Ok(())
    }

    /// The clauses of a negated goal: it, a cut and a failure, and one without goals.
    #[cycle(outline)]
    fn negation(&mut self, negated: &'a Goal) -> Result<(), Memory> {
        let open = self.open(ItemKind::Auxiliary(AuxiliaryKind::Construct))?;
        let clause = self.open(ItemKind::Clause)?;
        self.local(negated)?;
        self.put_commit()?;
        self.put_fail()?;
        self.close(clause);
        self.put_empty_clause()?;
        self.close(open);
        Ok(())
    }

    /// A goal whose cuts are its own. With one, it is an auxiliary predicate of one clause.
    #[cycle(outline)]
    fn local(&mut self, goal: &'a Goal) -> Result<(), Memory> {
        let outer = self.open(ItemKind::Inlined)?;
        let inner = self.open(ItemKind::Inlined)?;
        self.goal(goal)?;
        let cuts = self.cuts;
        self.close(inner);
        self.close(outer);
        if cuts {
            self.set_kind(outer, ItemKind::Auxiliary(AuxiliaryKind::Local));
            self.set_kind(inner, ItemKind::Clause);
        }
        self.cuts = outer.cuts;
        Ok(())
    }

    /// The one clause of a guarded goal, whose goal stands for two calls: of the guarded goal's predicate, whose cuts are its
    /// own, and of the handler.
    #[cycle(outline)]
    fn catch(
        &mut self,
        guarded: &'a Goal,
        catcher: &'a Term,
        recovery: &'a Goal,
    ) -> Result<(), Memory> {
        let open = self.open(ItemKind::Auxiliary(AuxiliaryKind::Construct))?;
        let clause = self.open(ItemKind::Clause)?;
        self.guarded(guarded)?;
        self.handler(catcher, recovery)?;
        self.close(clause);
        self.close(open);
        Ok(())
    }

    #[cycle(outline)]
    fn guarded(&mut self, goal: &'a Goal) -> Result<(), Memory> {
        let open = self.open(ItemKind::Auxiliary(AuxiliaryKind::Guarded))?;
        let clause = self.open(ItemKind::Clause)?;
        self.goal(goal)?;
        self.close(clause);
        self.close(open);
        self.cuts = open.cuts;
        Ok(())
    }

    /// The clauses of a handler, whose first argument is the ball: one for a ball that the catcher fits, and one that throws it again.
    #[cycle(outline)]
    fn handler(&mut self, catcher: &'a Term, recovery: &'a Goal) -> Result<(), Memory> {
        let ball = self.fresh()?;
        let open = self.open(ItemKind::Auxiliary(AuxiliaryKind::Handler(ball)))?;
        let clause = self.open(ItemKind::Clause)?;
        self.note(catcher)?;
        self.unify(ball, catcher)?;
        self.put_commit()?;
        self.local(recovery)?;
        self.close(clause);
        let clause = self.open(ItemKind::Clause)?;
        self.put_variables(ItemKind::ThrowAgain(ball), &[ball])?;
        self.close(clause);
        self.close(open);
        Ok(())
    }

    /// A call: a compound argument is unified with a new variable before it.
    fn call(&mut self, name: Atom, arguments: &'a [Term]) -> Result<(), Memory> {
        self.note_all(arguments)?;
        let placed = self.placed(arguments)?;
        self.put_variables(ItemKind::Call(name, arguments), placed.as_slice())
    }

    fn builtin(&mut self, builtin: Builtin, arguments: &'a [Term]) -> Result<(), Memory> {
        if builtin != Builtin::NotUnify {
            self.note_all(arguments)?;
        }
        match (builtin, arguments) {
            (Builtin::Unify, [left, right]) => self.unify_terms(left, right),
            (Builtin::NotUnify, [left, right]) => self.not_unify(left, right),
            (Builtin::Is, [value, expression]) => { self.evaluation(value, expression, arguments) }
            (
                Builtin::NumberEqual
                | Builtin::NumberNotEqual
                | Builtin::Less
                | Builtin::AtMost
                | Builtin::Greater
                | Builtin::AtLeast,
                _,
            ) => self.comparison(builtin, arguments),
            _ => {
                let placed = self.placed(arguments)?;
                self.put_variables(ItemKind::Builtin(builtin, arguments), placed.as_slice())
            }
        }
    }

    /// `left = right`, with a variable on the left. Where neither side is one, both are unified with a new variable.
    fn unify_terms(&mut self, left: &'a Term, right: &'a Term) -> Result<(), Memory> {
        match (left, right) {
            (Term::Var(number), _) => self.unify(*number, right),
            (_, Term::Var(number)) => self.unify(*number, left),
            _ => {
                let variable = self.fresh()?;
                self.unify(variable, left)?;
                self.unify(variable, right)
            }
        }
    }

    /// `left \= right` as the negation of `left = right`.
    fn not_unify(&mut self, left: &'a Term, right: &'a Term) -> Result<(), Memory> {
        let open = self.open(ItemKind::Auxiliary(AuxiliaryKind::Construct))?;
        let clause = self.open(ItemKind::Clause)?;
        self.note(left)?;
        self.note(right)?;
        self.unify_terms(left, right)?;
        self.put_commit()?;
        self.put_fail()?;
        self.close(clause);
        self.put_empty_clause()?;
        self.close(open);
        Ok(())
    }

    /// `value is expression`, whose expression stays a term.
    fn evaluation(
        &mut self,
        value: &'a Term,
        expression: &'a Term,
        arguments: &'a [Term],
    ) -> Result<(), Memory> {
        let placed = self.place(value)?;
        let first = self.occurrences.len();
        let mut nodes = 0;
        if let Some(number) = placed {
            self.occurrences.push(number)?;
            nodes = 1;
        }
        let more = self.occur(expression)?;
        let kind = ItemKind::Builtin(Builtin::Is, arguments);
        self.put(kind, first, more.saturating_add(nodes))
    }

    /// A comparison of numbers, whose sides stay terms.
    fn comparison(&mut self, builtin: Builtin, sides: &'a [Term]) -> Result<(), Memory> {
        let first = self.occurrences.len();
        let mut nodes = 0u64;
        for side in sides {
            nodes = nodes.saturating_add(self.occur(side)?);
        }
        self.put(ItemKind::Builtin(builtin, sides), first, nodes)
    }

    /// The variables of arguments: their own, and a new one for each compound.
    fn placed(&mut self, arguments: &'a [Term]) -> Result<Vec<u32>, Memory> {
        let mut placed = Vec::with_capacity(self.alloc, arguments.len())?;
        for argument in arguments {
            if let Some(number) = self.place(argument)? {
                placed.push(number)?;
            }
        }
        Ok(placed)
    }

    /// The variable of an argument, or none for a constant. A compound is unified with a new one.
    fn place(&mut self, argument: &'a Term) -> Result<Option<u32>, Memory> {
        match argument {
            Term::Var(number) => Ok(Some(*number)),
            Term::Int(_) | Term::Atom(_) => Ok(None),
            Term::Compound(_, _) => {
                let variable = self.fresh()?;
                self.unify(variable, argument)?;
                Ok(Some(variable))
            }
        }
    }

    /// The goal `variable = term`.
    fn unify(&mut self, variable: u32, term: &'a Term) -> Result<(), Memory> {
        let first = self.occurrences.len();
        self.occurrences.push(variable)?;
        let nodes = self.occur(term)?;
        self.put(
            ItemKind::Unify(variable, term),
            first,
            nodes.saturating_add(1),
        )
    }

    /// Notes the variables of terms of the text, in their order.
    fn note_all(&mut self, terms: &[Term]) -> Result<(), Memory> {
        for term in terms {
            self.note(term)?;
        }
        Ok(())
    }

    /// Notes the variables of a term of the text. Where no auxiliary predicate is open, nobody asks for them.
    fn note(&mut self, term: &Term) -> Result<(), Memory> {
        if self.depth > 1 {
            occur(&mut self.text, term)?;
        }
        Ok(())
    }

    /// Puts the variables of a term at the end of the occurrences, and gives the number of its nodes that hold one.
    fn occur(&mut self, term: &Term) -> Result<u64, Memory> {
        occur(&mut self.occurrences, term)
    }

    /// A throw of a term, which stays where it is.
    fn throw(&mut self, ball: &'a Term) -> Result<(), Memory> {
        self.note(ball)?;
        let first = self.occurrences.len();
        let nodes = self.occur(ball)?;
        self.put(ItemKind::Throw(ball), first, nodes)
    }

    /// A goal with these variables, each a node.
    fn put_variables(&mut self, kind: ItemKind<'a>, variables: &[u32]) -> Result<(), Memory> {
        let first = self.occurrences.len();
        self.occurrences.extend_from_slice(variables)?;
        self.put(kind, first, variables.len() as u64)
    }

    fn put_fail(&mut self) -> Result<(), Memory> {
        let first = self.occurrences.len();
        self.put(ItemKind::Fail, first, 0)
    }

    fn put_commit(&mut self) -> Result<(), Memory> {
        let first = self.occurrences.len();
        self.put(ItemKind::Commit, first, 0)
    }

    fn put_cut(&mut self) -> Result<(), Memory> {
        self.cuts = true;
        let first = self.occurrences.len();
        self.put(ItemKind::Cut, first, 0)
    }

    fn put_empty_clause(&mut self) -> Result<(), Memory> {
        let first = self.occurrences.len();
        self.put(ItemKind::Clause, first, 0)
    }

    /// Puts an item at the end, whose variables are those from `first` on.
    fn put(&mut self, kind: ItemKind<'a>, first: usize, nodes: u64) -> Result<(), Memory> {
        let last = self.occurrences.len();
        self.items.push(Item {
            kind,
            inside: 0,
            first,
            last,
            text_first: self.text.len(),
            text_last: self.text.len(),
            cuts: false,
            nodes,
        })?;
        Ok(())
    }

    /// Opens a group: what is put from now on is inside.
    fn open(&mut self, kind: ItemKind<'a>) -> Result<OpenGroup, Memory> {
        let open = OpenGroup {
            at: self.items.len(),
            cuts: self.cuts,
        };
        let first = self.occurrences.len();
        self.put(kind, first, 0)?;
        self.cuts = false;
        self.depth = self.depth.saturating_add(1);
        Ok(open)
    }

    /// Closes a group. A cut in it is one of the group around it too.
    fn close(&mut self, open: OpenGroup) {
        let after = self.items.len();
        if let Some(item) = self.items.get_mut(open.at) {
            item.inside = after.saturating_sub(open.at).saturating_sub(1);
            item.last = self.occurrences.len();
            item.text_last = self.text.len();
            item.cuts = self.cuts;
        }
        self.depth = self.depth.saturating_sub(1);
        self.cuts = self.cuts || open.cuts;
    }

    fn set_kind(&mut self, open: OpenGroup, kind: ItemKind<'a>) {
        if let Some(item) = self.items.get_mut(open.at) {
            item.kind = kind;
        }
    }
}

/// Puts the variables of a term at the end of a row, and gives the number of its nodes that hold one. It goes as deep as the term,
/// which is at most 4,096 deep where it was read.
#[tactic(auto, using(crate::proofs::TermParts::argument_falls))]
fn occur(row: &mut Vec<u32>, term: &Term) -> Result<u64, Memory> {
    match term {
        Term::Var(number) => {
            row.push(*number)?;
            Ok(1)
        }
        Term::Int(_) | Term::Atom(_) => Ok(0),
        Term::Compound(_, arguments) => {
            let mut nodes = 0u64;
            for argument in arguments.as_slice() {
                nodes = nodes.saturating_add(occur(row, argument)?);
            }
            Ok(if nodes == 0 {
                0
            } else {
                nodes.saturating_add(1)
            })
        }
    }
}

fn is_met(met: &Vec<bool>, number: u32) -> bool {
    met.get(number as usize).copied().unwrap_or(false)
}

fn meet(met: &mut Vec<bool>, number: u32) {
    if let Some(flag) = met.get_mut(number as usize) {
        *flag = true;
    }
}
