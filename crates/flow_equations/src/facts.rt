ghost use Rattle.std.specs.Prelude.{◌≡◌, ◌≤◌, ◌+◌, OnOk, IfOk, length, map};
ghost use Rattle.flow_equations.specs.Rises.{one_where};
ghost use Rattle.flow_equations.specs.PredicateRises.{rises_of_all};
ghost use Rattle.flow_equations.specs.Shape.{due_shape, shape_of, unreached};

use crate::fact_list::FactList;
use crate::predicate_facts::PredicateFacts;
use aq_term::memory::Memory;
use aq_term::proc_name::ProcName;
use kernel_ir::kernel::Kernel;
use kernel_ir::kernel_predicate::KernelPredicate;
use std::alloc::Global;
use std::collections::HashMap;
use std::marker::Model;
use type_lattice::fact::Fact;

/// A name as a key: its atom's number, its arity, its part and its width.
type Key = (u32, u8, u32, u8);

fn key(name: &ProcName) -> Key {
    (name.name.number, name.arity, name.part, name.width)
}

/// The facts of each predicate of a kernel program, in its order. Contracts see the list of them.
#[derive(Debug, Drop)]
pub struct Facts {
    items: Vec<PredicateFacts>,
    /// Where the facts of each name stand. Of two with one name it is the first.
    places: HashMap<Key, usize>,
}

impl Model for Facts {
    ghost use Rattle.std.specs.Prelude.{List};
    ghost use Rattle.flow_equations.specs.declared.predicate_facts.PredicateFacts.{PredicateFacts};

    ghost Value = { List PredicateFacts };

    ghost view = { λ a. a.items.items };
}

impl Facts {
    /// The list of these facts, with no copy of them.
    pub fn from_vec(alloc: Global, items: Vec<PredicateFacts>) -> Result<Facts, Memory>
        ensures { IfOk result (λ facts. facts ≡ items.items) }
    {
        let mut places = HashMap::new(alloc);
        for (place, facts) in items.as_slice().iter().enumerate() {
            let key = key(&facts.name);
            if !places.contains_key(&key) {
                places.insert(key, place)?;
            }
        }
        Ok(Facts { items, places })
    }

    /// The facts before anything is taken: no predicate is reached, and nothing is so of any argument.
    pub fn bottom(alloc: Global, kernel: &Kernel) -> Result<Facts, Memory>
        ensures facts { IfOk result (λ facts. facts ≡ map unreached kernel.now.predicates) }
        ensures shape { IfOk result (λ facts. map shape_of facts ≡ map due_shape kernel.now.predicates) }
    {
        let predicates = kernel.predicates.as_slice();
        let mut items = Vec::with_capacity(alloc, predicates.len())?;
        for predicate in predicates {
            items.push(unreached(alloc, predicate)?)?;
        }
        Facts::from_vec(alloc, items)
    }

    pub fn as_slice(&self) -> &[PredicateFacts]
        ensures { result.now ≡ self.now }
    {
        self.items.as_slice()
    }

    pub fn len(&self) -> usize
        ensures { result ≡ length self.now }
    {
        self.items.len()
    }

    /// The place of a predicate's facts, from 0.
    pub fn place(&self, name: &ProcName) -> Option<usize> {
        self.places.get(&key(name)).copied()
    }

    /// The facts of a predicate.
    pub fn find(&self, name: &ProcName) -> Option<&PredicateFacts> {
        self.items.get(self.place(name)?)
    }

    /// Notes that the predicate at a place is called, and says whether that is new.
    pub fn reach(&mut self, place: usize) -> bool
        ensures shape { map shape_of self.new ≡ map shape_of self.old }
        ensures rises { rises_of_all self.new + one_where result ≤ rises_of_all self.old }
    {
        match self.items.get_mut(place) {
            Some(facts) => facts.reach(),
            None => false,
        }
    }

    /// Joins the facts of a call's arguments into those of the predicate at a place, and says whether these rose.
    pub fn raise_call(&mut self, place: usize, facts: &[Fact]) -> bool
        ensures shape { map shape_of self.new ≡ map shape_of self.old }
        ensures rises { rises_of_all self.new + one_where result ≤ rises_of_all self.old }
    {
        match self.items.get_mut(place) {
            Some(own) => own.raise_call(facts),
            None => false,
        }
    }

    /// Joins the facts of the arguments at a success into those of the predicate at a place, and says whether these rose.
    pub fn raise_success(&mut self, place: usize, facts: &[Fact]) -> bool
        ensures shape { map shape_of self.new ≡ map shape_of self.old }
        ensures rises { rises_of_all self.new + one_where result ≤ rises_of_all self.old }
    {
        match self.items.get_mut(place) {
            Some(own) => own.raise_success(facts),
            None => false,
        }
    }
}

/// The facts of a predicate that is not reached.
fn unreached(alloc: Global, predicate: &KernelPredicate) -> Result<PredicateFacts, Memory>
    ensures facts { IfOk result (λ facts. facts ≡ unreached predicate.now) }
    ensures shape { IfOk result (λ facts. shape_of facts ≡ due_shape predicate.now) }
{
    let width = predicate.name.width as usize;
    let arguments = if predicate.barrier {
        width.saturating_sub(1)
    } else {
        width
    };
    Ok(PredicateFacts {
        name: predicate.name,
        reached: false,
        call: FactList::filled(alloc, Fact::Bot, arguments)?,
        success: FactList::filled(alloc, Fact::Bot, arguments)?,
    })
}
