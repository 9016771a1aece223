//! Many goals, each with many ways in which its variables may stand, whose code is accepted.

use crate::given::{Given, Stand};
use crate::harness::{FACTS, accepts};
use crate::scene::Bench;
use std::alloc::Global;
use std::process::Abort;
use std::test::Fail;
use type_lattice::fact::Fact;

/// The names of the variables of generated goals. The first one is the left side.
const NAMES: [&str; 4] = ["X", "A", "B", "C"];

/// The right sides of generated goals.
const TERMS: [&str; 14] = [
    "A",
    "c",
    "7",
    "g(c)",
    "f(A)",
    "[A|B]",
    "f(A,A)",
    "f(g(A),B)",
    "[c,A,7|B]",
    "[A,f(B),[c]]",
    "f(A,g(A,B))",
    "[[A|B],A]",
    "f([A],g(B,c,g(1)),A)",
    "f(A,g(B,C),[A|C])",
];

/// Right sides with the left side in them.
const CYCLES: [&str; 5] = [
    "X",
    "f(X,A)",
    "g(g(g(A)),g(X))",
    "f(g(X,g(A)),[B|X])",
    "[X,X|A]",
];

/// Right sides in which each variable occurs once.
const LINEAR: [&str; 6] = [
    "A",
    "f(A)",
    "[A|B]",
    "f(g(A),B)",
    "[c,A,7|B]",
    "[A,f(B),[c]]",
];

/// How many ways of a goal are tried at most.
const TRIES: u32 = 60;

/// In which ways the variables of a goal may stand: out, or with each fact in each of these places. The left side may be a result.
#[derive(Clone, Copy)]
struct Ways<'a> {
    stands: &'a [Stand],
    hole: Option<Stand>,
}

impl<'a> Ways<'a> {
    /// How many ways one variable has.
    fn count(&self) -> u32 {
        (self.stands.len().min(8) as u32)
            .saturating_mul(6)
            .saturating_add(1)
    }

    /// How many ways all variables of a goal have.
    fn all(&self, term: &str) -> u32 {
        let mut all = 1u32;
        for name in NAMES {
            if self.varies(name, term) {
                all = all.saturating_mul(self.count());
            }
        }
        all
    }

    /// Whether a variable is in the goal and no result.
    fn varies(&self, name: &str, term: &str) -> bool {
        if name == "X" {
            self.hole.is_none()
        } else {
            term.contains(name)
        }
    }

    /// How a variable stands by a number.
    fn given(&self, name: &'static str, number: u32) -> Given<'static> {
        let Some(way) = number.checked_sub(1) else {
            return Given {
                name,
                fact: Fact::Out,
                stand: Stand::Nowhere,
            };
        };
        let fact = FACTS.get(way as usize % 6).copied();
        let stand = self.stands.get(way as usize / 6).copied();
        Given {
            name,
            fact: fact.unwrap_or(Fact::Any),
            stand: stand.unwrap_or(Stand::Head),
        }
    }

    /// How the variables of a goal stand by the digits of a number.
    fn all_given(
        &self,
        alloc: Global,
        term: &str,
        number: u32,
    ) -> Result<Vec<Given<'static>>, Fail> {
        let mut given = Vec::new(alloc);
        if let Some(stand) = self.hole {
            given.push(Given {
                name: "X",
                fact: Fact::Out,
                stand,
            })?;
        }
        let mut rest = number;
        for name in NAMES {
            if self.varies(name, term) {
                let digit = rest.checked_rem(self.count()).unwrap_or(0);
                given.push(self.given(name, digit))?;
                rest = rest.checked_div(self.count()).unwrap_or(0);
            }
        }
        Ok(given)
    }

    /// That a goal is accepted in all ways, or in as many of them as are tried.
    fn accept(&self, rt: &impl Abort, alloc: Global, term: &str) -> Result<(), Fail> {
        let text = format!(in alloc; "X = {term}")?;
        let all = self.all(term);
        let step = (all / TRIES).saturating_add(1);
        let mut bench = Bench::new(alloc)?;
        let mut number = 0u32;
        for _ in 0..TRIES {
            if number < all {
                let given = self.all_given(alloc, term, number)?;
                accepts(rt, alloc, &mut bench, given.as_slice(), text.as_str())?;
            }
            number = number.saturating_add(step);
        }
        Ok(())
    }

    /// That goals with these right sides are accepted.
    fn accept_all(&self, rt: &impl Abort, alloc: Global, terms: &[&str]) -> Result<(), Fail> {
        for term in terms {
            self.accept(rt, alloc, term)?;
        }
        Ok(())
    }
}

const REGISTERS: Ways = Ways {
    stands: &[Stand::Head, Stand::Local],
    hole: None,
};

const SLOTS: Ways = Ways {
    stands: &[Stand::HeadSlot, Stand::LocalSlot, Stand::Boxed],
    hole: None,
};

const HOLES: Ways = Ways {
    stands: &[Stand::Head, Stand::Local],
    hole: Some(Stand::Hole),
};

const HOLES_IN_SLOTS: Ways = Ways {
    stands: &[Stand::HeadSlot, Stand::LocalSlot, Stand::Boxed],
    hole: Some(Stand::HoleSlot),
};

const PASSED: Ways = Ways {
    stands: &[Stand::Head, Stand::Local, Stand::Nowhere],
    hole: Some(Stand::Hole),
};

const PASSED_FROM_SLOTS: Ways = Ways {
    stands: &[Stand::HeadSlot, Stand::LocalSlot, Stand::Nowhere],
    hole: Some(Stand::HoleSlot),
};

#[test]
fn goals_on_registers_are_accepted(rt: HostRuntime) -> Result<(), Fail> {
    REGISTERS.accept_all(&rt, rt.alloc(), &TERMS)?;
    REGISTERS.accept_all(&rt, rt.alloc(), &CYCLES)
}

#[test]
fn goals_on_slots_are_accepted(rt: HostRuntime) -> Result<(), Fail> {
    SLOTS.accept_all(&rt, rt.alloc(), &TERMS)?;
    SLOTS.accept_all(&rt, rt.alloc(), &CYCLES)
}

#[test]
fn goals_that_fill_holes_are_accepted(rt: HostRuntime) -> Result<(), Fail> {
    HOLES.accept_all(&rt, rt.alloc(), &TERMS)?;
    HOLES_IN_SLOTS.accept_all(&rt, rt.alloc(), &TERMS)
}

#[test]
fn goals_whose_variables_a_later_call_makes_are_accepted(rt: HostRuntime) -> Result<(), Fail> {
    PASSED.accept_all(&rt, rt.alloc(), &LINEAR)?;
    PASSED_FROM_SLOTS.accept_all(&rt, rt.alloc(), &LINEAR)
}
