use crate::goal_parts::GoalParts;
use aq_term::builtin::Builtin;
use aq_term::memory::Memory;
use aq_term::proc_name::ProcName;
use aq_term::term::Term;
use kernel_ir::kernel::Kernel;
use kernel_ir::kernel_clause::KernelClause;
use kernel_ir::kernel_goal::KernelGoal;
use kernel_ir::kernel_predicate::KernelPredicate;
use std::alloc::Global;

/// Why a kernel program is not well formed, or none.
pub fn fault_of(alloc: Global, kernel: &Kernel) -> Result<Option<&'static str>, Memory> {
    let predicates = kernel.predicates.as_slice();
    for predicate in predicates {
        if count_of(predicates, predicate.name) != 1 {
            return Ok(Some("a name stands twice"));
        }
        if let Some(fault) = predicate_fault(predicate) {
            return Ok(Some(fault));
        }
        for clause in predicate.clauses.as_slice() {
            if let Some(fault) = clause_fault(alloc, predicates, predicate, clause)? {
                return Ok(Some(fault));
            }
        }
    }
    Ok(None)
}

fn count_of(predicates: &[KernelPredicate], name: ProcName) -> usize {
    predicates.iter().filter(|p| p.name == name).count()
}

/// Whether there is a predicate of this name, with a barrier or without.
fn is_there(predicates: &[KernelPredicate], name: ProcName, barrier: bool) -> bool {
    predicates
        .iter()
        .any(|p| p.name == name && p.barrier == barrier)
}

fn predicate_fault(predicate: &KernelPredicate) -> Option<&'static str> {
    let name = predicate.name;
    if predicate.clauses.len() == 0 {
        return Some("a predicate without clauses");
    }
    if predicate.barrier && (name.part == 0 || name.width == 0) {
        return Some("a barrier without a place");
    }
    if name.part == 0 && name.width != name.arity {
        return Some("a source predicate with other arguments");
    }
    None
}

fn clause_fault(
    alloc: Global,
    predicates: &[KernelPredicate],
    predicate: &KernelPredicate,
    clause: &KernelClause,
) -> Result<Option<&'static str>, Memory> {
    let width = u32::from(predicate.name.width);
    if clause.variables < width {
        return Ok(Some("too few variables"));
    }
    let mut parts = Vec::new(alloc);
    for goal in clause.goals.as_slice() {
        parts.push(GoalParts::of(alloc, goal)?)?;
        if matches!(goal, KernelGoal::Catch(_, _, _, _))
            && (clause.goals.len() != 1 || predicate.clauses.len() != 1 || predicate.barrier)
        {
            return Ok(Some("a catch that is not alone"));
        }
        if let Some(fault) = goal_fault(alloc, predicates, predicate, clause, goal)? {
            return Ok(Some(fault));
        }
    }
    for variable in width..clause.variables {
        if !parts.as_slice().iter().any(|part| part.has(variable)) {
            return Ok(Some("a variable that stands nowhere"));
        }
    }
    Ok(None)
}

/// Variables that a term of a clause may have: those below a number, but for the barrier.
#[derive(Clone, Copy)]
struct Scope {
    alloc: Global,
    variables: u32,
    barrier: Option<u32>,
}

impl Scope {
    fn has(&self, variable: u32) -> bool {
        variable < self.variables && self.barrier != Some(variable)
    }

    fn is_term(&self, term: &Term) -> Result<bool, Memory> {
        let parts = GoalParts::of_term(self.alloc, term)?;
        for variable in parts.variables.as_slice() {
            if !self.has(*variable) {
                return Ok(false);
            }
        }
        Ok(true)
    }

    fn are_terms(&self, terms: &[Term]) -> Result<bool, Memory> {
        for term in terms {
            if !self.is_term(term)? {
                return Ok(false);
            }
        }
        Ok(true)
    }

    /// Whether it is a variable or a constant.
    fn is_argument(&self, term: &Term) -> bool {
        match term {
            Term::Var(variable) => self.has(*variable),
            Term::Int(_) | Term::Atom(_) => true,
            Term::Compound(_, _) => false,
        }
    }

    fn are_arguments(&self, terms: &[Term]) -> bool {
        for term in terms {
            if !self.is_argument(term) {
                return false;
            }
        }
        true
    }
}

fn goal_fault(
    alloc: Global,
    predicates: &[KernelPredicate],
    predicate: &KernelPredicate,
    clause: &KernelClause,
    goal: &KernelGoal,
) -> Result<Option<&'static str>, Memory> {
    let barrier = if predicate.barrier {
        u32::from(predicate.name.width).checked_sub(1)
    } else {
        None
    };
    let scope = Scope {
        alloc,
        variables: clause.variables,
        barrier,
    };
    let fits = match goal {
        KernelGoal::Unify(variable, term) => scope.has(*variable) && scope.is_term(term)?,
        KernelGoal::Call(name, arguments) => {
            is_call(predicates, &scope, *name, arguments.as_slice())
        }
        KernelGoal::Undefined(name, arguments) => {
            let undefined = !predicates.iter().any(|p| {
                p.name.part == 0 && p.name.name == *name && p.name.width as usize == arguments.len()
            });
            undefined && scope.are_arguments(arguments.as_slice())
        }
        KernelGoal::Builtin(builtin, arguments) => {
            is_builtin(&scope, *builtin, arguments.as_slice())?
        }
        KernelGoal::Cut | KernelGoal::Fail => true,
        KernelGoal::CutTo(variable) => scope.barrier == Some(*variable),
        KernelGoal::Catch(guarded, arguments, handler, others) => {
            is_there(predicates, *guarded, false)
                && is_there(predicates, *handler, false)
                && arguments.len() == guarded.width as usize
                && others.len().saturating_add(1) == handler.width as usize
                && scope.are_arguments(arguments.as_slice())
                && scope.are_arguments(others.as_slice())
        }
        KernelGoal::Throw(ball) => scope.is_term(ball)?,
    };
    Ok(if fits { None } else { Some("a goal") })
}

fn is_call(
    predicates: &[KernelPredicate],
    scope: &Scope,
    name: ProcName,
    arguments: &[Term],
) -> bool {
    let width = name.width as usize;
    if is_there(predicates, name, false) {
        return arguments.len() == width && scope.are_arguments(arguments);
    }
    if !is_there(predicates, name, true) {
        return false;
    }
    if arguments.len().saturating_add(1) == width {
        return scope.are_arguments(arguments);
    }
    match arguments {
        [others @ .., Term::Var(last)] => {
            arguments.len() == width && scope.barrier == Some(*last) && scope.are_arguments(others)
        }
        _ => false,
    }
}

fn is_builtin(scope: &Scope, builtin: Builtin, arguments: &[Term]) -> Result<bool, Memory> {
    if arguments.len() != builtin.arity() as usize {
        return Ok(false);
    }
    match (builtin, arguments) {
        (Builtin::Unify | Builtin::NotUnify, _) => Ok(false),
        (Builtin::Is, [value, expression]) => {
            Ok(scope.is_argument(value) && scope.is_term(expression)?)
        }
        (
            Builtin::NumberEqual
            | Builtin::NumberNotEqual
            | Builtin::Less
            | Builtin::AtMost
            | Builtin::Greater
            | Builtin::AtLeast,
            _,
        ) => scope.are_terms(arguments),
        _ => Ok(scope.are_arguments(arguments)),
    }
}
