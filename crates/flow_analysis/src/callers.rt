use aq_term::memory::Memory;
use flow_equations::facts::Facts;
use kernel_ir::kernel::Kernel;
use kernel_ir::kernel_clause::KernelClause;
use kernel_ir::kernel_goal::KernelGoal;
use std::alloc::Global;

/// The place of a clause: that of its predicate, and its own among the predicate's clauses, both from 0.
#[derive(Clone, Copy, Debug, PartialEq, Eq)]
pub struct ClausePlace {
    pub predicate: usize,
    pub clause: usize,
}

/// For each predicate the clauses on whose facts its success has a say: those with a call of it. What a `Catch` calls has none,
/// since nothing is known behind it.
#[derive(Debug, Drop)]
pub struct Callers {
    rows: Vec<Vec<ClausePlace>>,
}

impl Callers {
    /// Those of a kernel program whose predicates have their facts in this order.
    pub fn of(alloc: Global, kernel: &Kernel, facts: &Facts) -> Result<Callers, Memory> {
        let mut callers = Callers {
            rows: Vec::with_capacity(alloc, facts.len())?,
        };
        for _ in 0..facts.len() {
            callers.rows.push(Vec::new(alloc))?;
        }
        for (predicate, item) in kernel.predicates.as_slice().iter().enumerate() {
            for (clause, item) in item.clauses.as_slice().iter().enumerate() {
                callers.note_clause(ClausePlace { predicate, clause }, item, facts)?;
            }
        }
        Ok(callers)
    }

    /// The clauses that call the predicate at a place.
    pub fn of_predicate(&self, place: usize) -> &[ClausePlace] {
        match self.rows.get(place) {
            Some(row) => row.as_slice(),
            None => &[],
        }
    }

    fn note_clause(
        &mut self,
        place: ClausePlace,
        clause: &KernelClause,
        facts: &Facts,
    ) -> Result<(), Memory> {
        for goal in clause.goals.as_slice() {
            if let KernelGoal::Call(name, _) = goal {
                if let Some(callee) = facts.place(name) {
                    self.note(callee, place)?;
                }
            }
        }
        Ok(())
    }

    /// Notes that a clause calls the predicate at a place. The clauses come in order, so that one which calls it again is the last
    /// one noted.
    fn note(&mut self, callee: usize, place: ClausePlace) -> Result<(), Memory> {
        if let Some(row) = self.rows.get_mut(callee) {
            let is_noted = match row.last() {
                Some(last) => *last == place,
                None => false,
            };
            if !is_noted {
                row.push(place)?;
            }
        }
        Ok(())
    }
}
