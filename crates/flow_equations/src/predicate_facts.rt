ghost use Rattle.std.specs.Prelude.{◌≡◌, ◌≤◌, ◌+◌, length};
ghost use Rattle.flow_equations.specs.Rises.{one_where};
ghost use Rattle.flow_equations.specs.PredicateRises.{rises_of_predicate};
ghost use Rattle.flow_equations.specs.Shape.{shape_of};

use crate::fact_list::FactList;
use aq_term::proc_name::ProcName;
use type_lattice::fact::Fact;

/// What is known of the calls of a predicate.
#[derive(Debug, Drop)]
pub struct PredicateFacts {
    pub name: ProcName,
    /// Whether an entry or a clause that is taken calls it.
    pub reached: bool,
    /// What is so of the arguments at each call. A barrier is left out.
    pub call: FactList,
    /// What is so of the arguments where a call succeeds: all that is known of one that was out, and of another what is known of
    /// its term. A barrier is left out.
    pub success: FactList,
}

impl PredicateFacts {
    /// Whether it has arguments and no call of it is known to succeed.
    pub fn never_succeeds(&self) -> bool {
        for fact in self.success.as_slice() {
            if *fact == Fact::Bot {
                return true;
            }
        }
        false
    }

    /// Notes that it is called, and says whether that is new.
    pub fn reach(&mut self) -> bool
        ensures shape { shape_of self.new ≡ shape_of self.old }
        ensures rises { rises_of_predicate self.new + one_where result ≤ rises_of_predicate self.old }
    {
        if self.reached {
            return false;
        }
        self.reached = true;
        true
    }

    /// Joins the facts of a call's arguments, and says whether the facts rose.
    pub fn raise_call(&mut self, facts: &[Fact]) -> bool
        ensures shape { shape_of self.new ≡ shape_of self.old }
        ensures rises { rises_of_predicate self.new + one_where result ≤ rises_of_predicate self.old }
    {
        self.call.raise(facts)
    }

    /// Joins the facts of the arguments at a success, and says whether the facts rose.
    pub fn raise_success(&mut self, facts: &[Fact]) -> bool
        ensures shape { shape_of self.new ≡ shape_of self.old }
        ensures rises { rises_of_predicate self.new + one_where result ≤ rises_of_predicate self.old }
    {
        self.success.raise(facts)
    }
}
