use aq_term::memory::Memory;
use flow_equations::occurrences::goal_variables;
use kernel_ir::kernel_goal::KernelGoal;
use std::alloc::Global;
use unify_special::wanted::Wanted;

/// How long the values of a clause are wanted, by the order in which its goals are taken.
#[derive(Debug, Drop)]
pub struct Liveness {
    /// For each variable how many goals there are up to its last one, that one among them, and 0 where no goal has it.
    ends: Vec<usize>,
    /// The same for the number of choices at the entry of the procedure.
    depth_end: usize,
}

impl Liveness {
    /// That of these goals, whose variables are below a number.
    pub fn of(alloc: Global, goals: &[KernelGoal], variables: u32) -> Result<Liveness, Memory> {
        let mut ends = vec![in alloc; 0usize; variables as usize]?;
        let mut depth_end = 0;
        for (number, goal) in goals.iter().enumerate() {
            let end = number.saturating_add(1);
            note_end(&mut ends, goal_variables(alloc, goal)?.as_slice(), end);
            if takes_depth(goal) {
                depth_end = end;
            }
        }
        Ok(Liveness { ends, depth_end })
    }

    /// Which variables the goal of this number or a later one has.
    pub fn wanted(&self, from: usize) -> Wanted<'_> {
        Wanted::new(self.ends.as_slice(), from)
    }

    /// Whether the goal of this number or a later one has the variable.
    pub fn wants(&self, variable: u32, from: usize) -> bool {
        self.wanted(from).wants(variable)
    }

    /// Whether the goal of this number or a later one cuts to the own depth or gives it to what it calls.
    pub fn wants_depth(&self, from: usize) -> bool {
        self.depth_end > from
    }
}

fn note_end(ends: &mut Vec<usize>, variables: &[u32], end: usize) {
    for variable in variables {
        if let Some(own) = ends.get_mut(*variable as usize) {
            *own = end;
        }
    }
}

/// Whether a goal cuts to the own depth, or gives it to what it calls.
pub fn takes_depth(goal: &KernelGoal) -> bool {
    match goal {
        KernelGoal::Cut => true,
        KernelGoal::Call(name, arguments) => arguments.len() < usize::from(name.width),
        _ => false,
    }
}
