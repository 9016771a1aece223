use crate::numbers::Numbers;
use aq_term::args::Args;
use aq_term::args0::Args0;
use aq_term::atom::Atom;
use aq_term::builtin::Builtin;
use aq_term::entries::Entries;
use aq_term::entry::Entry;
use aq_term::memory::Memory;
use aq_term::mode::Mode;
use aq_term::modes::Modes;
use aq_term::proc_name::ProcName;
use aq_term::term::Term;
use kernel_ir::kernel::Kernel;
use kernel_ir::kernel_clause::KernelClause;
use kernel_ir::kernel_clauses::KernelClauses;
use kernel_ir::kernel_goal::KernelGoal;
use kernel_ir::kernel_goals::KernelGoals;
use kernel_ir::kernel_predicate::KernelPredicate;
use kernel_ir::kernel_predicates::KernelPredicates;
use std::alloc::Global;

/// The built-ins of generated goals.
const BUILTINS: [Builtin; 18] = [
    Builtin::Var,
    Builtin::Nonvar,
    Builtin::Atom,
    Builtin::Integer,
    Builtin::Atomic,
    Builtin::Compound,
    Builtin::Identical,
    Builtin::TermLess,
    Builtin::Compare,
    Builtin::Functor,
    Builtin::Arg,
    Builtin::Univ,
    Builtin::CopyTerm,
    Builtin::Is,
    Builtin::Is,
    Builtin::Less,
    Builtin::Write,
    Builtin::PutChar,
];

/// A predicate whose clauses are to be generated.
#[derive(Clone, Copy)]
struct Plan {
    name: ProcName,
    barrier: bool,
}

/// What a clause's goals may name.
#[derive(Clone, Copy)]
struct Scope {
    variables: u32,
    barrier: Option<u32>,
}

/// Kernel programs that follow from numbers.
#[derive(Drop)]
pub struct Generator {
    alloc: Global,
    numbers: Numbers,
    plans: Vec<Plan>,
}

impl Generator {
    /// The one of a seed.
    pub fn new(alloc: Global, seed: u32) -> Generator {
        Generator {
            alloc,
            numbers: Numbers { state: seed },
            plans: Vec::new(alloc),
        }
    }

    /// A kernel program of up to six predicates.
    pub fn kernel(&mut self) -> Result<Kernel, Memory> {
        let count = 1 + self.numbers.below(6);
        for number in 0..count {
            let plan = self.plan(number);
            self.plans.push(plan)?;
        }
        let mut predicates = KernelPredicates::new(self.alloc);
        for number in 0..count {
            if let Some(plan) = self.plan_at(number as usize) {
                let clauses = self.clauses(plan)?;
                predicates.push(KernelPredicate {
                    name: plan.name,
                    barrier: plan.barrier,
                    clauses,
                })?;
            }
        }
        Ok(Kernel { predicates })
    }

    /// Entries of the first predicate and maybe of another.
    pub fn entries(&mut self) -> Result<Entries, Memory> {
        let mut entries = Entries::new(self.alloc);
        self.entry(0, &mut entries)?;
        if self.numbers.one_in(3) {
            self.entry(1, &mut entries)?;
        }
        Ok(entries)
    }

    fn entry(&mut self, number: usize, entries: &mut Entries) -> Result<(), Memory> {
        let Some(plan) = self.plan_at(number) else {
            return Ok(());
        };
        if plan.name.part != 0 {
            return Ok(());
        }
        let mut modes = Modes::new(self.alloc);
        for _ in 0..plan.name.arity {
            modes.push(match self.numbers.below(5) {
                0 => Mode::Ground,
                1 => Mode::Nonvar,
                2 => Mode::Any,
                _ => Mode::Out,
            })?;
        }
        entries.push(Entry {
            name: plan.name.name,
            arity: plan.name.arity,
            modes,
            clause: 1,
        })
    }

    fn plan_at(&self, number: usize) -> Option<Plan> {
        self.plans.get(number).copied()
    }

    fn plan(&mut self, number: u32) -> Plan {
        let width = self.numbers.below(4) as u8;
        let auxiliary = number > 0 && self.numbers.one_in(2);
        let barrier = auxiliary && width > 0 && self.numbers.one_in(2);
        let name = ProcName {
            name: Atom {
                number: number.saturating_add(200),
            },
            arity: width,
            part: u32::from(auxiliary),
            width,
        };
        Plan { name, barrier }
    }

    fn clauses(&mut self, plan: Plan) -> Result<KernelClauses, Memory> {
        let mut clauses = KernelClauses::new(self.alloc);
        for _ in 0..1 + self.numbers.below(3) {
            let width = u32::from(plan.name.width);
            let scope = Scope {
                variables: width.saturating_add(self.numbers.below(4)),
                barrier: if plan.barrier {
                    Some(width.saturating_sub(1))
                } else {
                    None
                },
            };
            let mut goals = KernelGoals::new(self.alloc);
            for _ in 0..self.numbers.below(6) {
                let goal = self.goal(scope)?;
                goals.push(goal)?;
            }
            clauses.push(KernelClause {
                goals,
                variables: scope.variables,
                source: 1,
            })?;
        }
        Ok(clauses)
    }

    fn goal(&mut self, scope: Scope) -> Result<KernelGoal, Memory> {
        match self.numbers.below(40) {
            0 => Ok(KernelGoal::Fail),
            1 => Ok(KernelGoal::Throw(self.argument(scope))),
            2 => Ok(KernelGoal::Undefined(Atom::CALL, self.arguments(scope, 2)?)),
            3 | 4 => Ok(match scope.barrier {
                Some(barrier) => KernelGoal::CutTo(barrier),
                None => KernelGoal::Cut,
            }),
            5 | 6 => self.catch(scope),
            7..=12 => self.builtin(scope),
            13..=26 => self.unification(scope),
            _ => self.call(scope),
        }
    }

    fn unification(&mut self, scope: Scope) -> Result<KernelGoal, Memory> {
        match self.variable(scope) {
            Some(variable) => Ok(KernelGoal::Unify(variable, self.term(scope)?)),
            None => Ok(KernelGoal::Cut),
        }
    }

    fn builtin(&mut self, scope: Scope) -> Result<KernelGoal, Memory> {
        let number = self.numbers.below(18) as usize;
        let builtin = BUILTINS.get(number).copied().unwrap_or(Builtin::Nl);
        let mut arguments = Args0::new(self.alloc);
        for place in 0..builtin.arity() {
            let is_evaluated = match builtin {
                Builtin::Is => place == 1,
                Builtin::Less => true,
                _ => false,
            };
            arguments.push(if is_evaluated {
                self.term(scope)?
            } else {
                self.argument(scope)
            })?;
        }
        Ok(KernelGoal::Builtin(builtin, arguments))
    }

    fn call(&mut self, scope: Scope) -> Result<KernelGoal, Memory> {
        let number = self.numbers.below(6) as usize;
        let Some(plan) = self.plan_at(number) else {
            return Ok(KernelGoal::Cut);
        };
        let barrier = u8::from(plan.barrier);
        let mut arguments = self.arguments(scope, plan.name.width.saturating_sub(barrier))?;
        if let Some(own) = scope.barrier {
            if plan.barrier && self.numbers.one_in(2) {
                arguments.push(Term::Var(own))?;
            }
        }
        Ok(KernelGoal::Call(plan.name, arguments))
    }

    fn catch(&mut self, scope: Scope) -> Result<KernelGoal, Memory> {
        let guarded = self.numbers.below(6) as usize;
        let handler = self.numbers.below(6) as usize;
        match (self.plan_at(guarded), self.plan_at(handler)) {
            (Some(guarded), Some(handler))
                if !guarded.barrier && !handler.barrier && handler.name.width > 0 => {
                Ok(KernelGoal::Catch(
                    guarded.name,
                    self.arguments(scope, guarded.name.width)?,
                    handler.name,
                    self.arguments(scope, handler.name.width.saturating_sub(1))?,
                ))
            }
            _ => Ok(KernelGoal::Cut),
        }
    }

    fn arguments(&mut self, scope: Scope, count: u8) -> Result<Args0, Memory> {
        let mut arguments = Args0::new(self.alloc);
        for _ in 0..count {
            arguments.push(self.argument(scope))?;
        }
        Ok(arguments)
    }

    /// A variable or a constant.
    fn argument(&mut self, scope: Scope) -> Term {
        if self.numbers.one_in(5) {
            return Term::Int(1);
        }
        match self.variable(scope) {
            Some(variable) => Term::Var(variable),
            None => Term::Atom(Atom::NIL),
        }
    }

    /// A variable that is no barrier.
    fn variable(&mut self, scope: Scope) -> Option<u32> {
        let variable = self.numbers.below(scope.variables);
        if scope.variables == 0 || scope.barrier == Some(variable) {
            return None;
        }
        Some(variable)
    }

    /// A term of up to two levels.
    fn term(&mut self, scope: Scope) -> Result<Term, Memory> {
        if self.numbers.one_in(3) {
            return Ok(self.argument(scope));
        }
        let mut items = Vec::new(self.alloc);
        for _ in 0..1 + self.numbers.below(3) {
            items.push(self.argument(scope))?;
        }
        Ok(Term::Compound(Atom::PLUS, Args::from_vec(items)))
    }
}
