use aq_term::memory::Memory;
use aq_term::term::Term;
use kernel_ir::kernel_goal::KernelGoal;
use std::alloc::Global;

/// More than the nodes of a goal of the tests.
const MANY: usize = 1_000_000;

/// The variables of a goal of a kernel clause, each as often as it stands there, and the nodes that hold one.
#[derive(Drop)]
pub struct GoalParts {
    pub variables: Vec<u32>,
    pub nodes: u64,
}

impl GoalParts {
    /// The parts of all arguments of a goal.
    pub fn of(alloc: Global, goal: &KernelGoal) -> Result<GoalParts, Memory> {
        let mut parts = GoalParts {
            variables: Vec::new(alloc),
            nodes: 0,
        };
        match goal {
            KernelGoal::Unify(variable, term) => {
                parts.add(alloc, &Term::Var(*variable))?;
                parts.add(alloc, term)?;
            }
            KernelGoal::Call(_, arguments)
            | KernelGoal::Undefined(_, arguments)
            | KernelGoal::Builtin(_, arguments) => parts.add_all(alloc, arguments.as_slice())?,
            KernelGoal::Catch(_, arguments, _, others) => {
                parts.add_all(alloc, arguments.as_slice())?;
                parts.add_all(alloc, others.as_slice())?;
            }
            KernelGoal::Throw(ball) => parts.add(alloc, ball)?,
            KernelGoal::Cut | KernelGoal::CutTo(_) | KernelGoal::Fail => {}
        }
        Ok(parts)
    }

    /// The parts of a term.
    pub fn of_term(alloc: Global, term: &Term) -> Result<GoalParts, Memory> {
        let mut parts = GoalParts {
            variables: Vec::new(alloc),
            nodes: 0,
        };
        parts.add(alloc, term)?;
        Ok(parts)
    }

    fn add_all(&mut self, alloc: Global, terms: &[Term]) -> Result<(), Memory> {
        for term in terms {
            self.add(alloc, term)?;
        }
        Ok(())
    }

    fn add(&mut self, alloc: Global, term: &Term) -> Result<(), Memory> {
        let mut pending = vec![in alloc; term]?;
        for _ in 0..MANY {
            let Some(next) = pending.pop() else {
                break;
            };
            if !next.is_ground() {
                self.nodes = self.nodes.saturating_add(1);
            }
            match next {
                Term::Var(number) => self.variables.push(*number)?,
                Term::Compound(_, arguments) => {
                    for argument in arguments.as_slice() {
                        pending.push(argument)?;
                    }
                }
                _ => {}
            }
        }
        Ok(())
    }

    pub fn has(&self, variable: u32) -> bool {
        self.variables.as_slice().contains(&variable)
    }
}
