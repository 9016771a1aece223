use crate::value::{Compound, Value};
use aq_term::atom::Atom;
use aq_term::memory::Memory;
use std::alloc::Global;

/// The terms of a run, and what its variables stand for.
#[derive(Debug, Drop)]
pub struct Terms {
    alloc: Global,
    /// The arguments of all compounds.
    cells: Vec<Value>,
    /// The term that each variable is bound to.
    bindings: Vec<Option<Value>>,
    /// The variables that are bound, in the order in which they were.
    bound: Vec<usize>,
    /// The most visits of one walk over terms.
    most_visits: u64,
}

/// How much there was at a time.
#[derive(Clone, Copy, Debug)]
pub struct Mark {
    cells: usize,
    variables: usize,
    bound: usize,
}

impl Terms {
    pub fn new(alloc: Global, most_visits: u64) -> Terms {
        Terms {
            alloc,
            cells: Vec::new(alloc),
            bindings: Vec::new(alloc),
            bound: Vec::new(alloc),
            most_visits,
        }
    }

    pub fn alloc(&self) -> Global {
        self.alloc
    }

    /// The most visits of one walk over terms.
    pub fn most_visits(&self) -> u64 {
        self.most_visits
    }

    /// The number of the first of `count` new variables.
    pub fn variables(&mut self, count: usize) -> Result<usize, Memory> {
        let first = self.bindings.len();
        for _ in 0..count {
            self.bindings.push(None)?;
        }
        Ok(first)
    }

    /// A new variable.
    pub fn variable(&mut self) -> Result<Value, Memory> {
        Ok(Value::Variable(self.variables(1)?))
    }

    /// The first of `count` new places for arguments, each with the integer 0 until it is set.
    pub fn room(&mut self, count: usize) -> Result<usize, Memory> {
        let first = self.cells.len();
        for _ in 0..count {
            self.cells.push(Value::Integer(0))?;
        }
        Ok(first)
    }

    /// Sets the argument at a place.
    pub fn set(&mut self, place: usize, value: Value) {
        if let Some(cell) = self.cells.get_mut(place) {
            *cell = value;
        }
    }

    /// A compound of these arguments.
    pub fn compound(&mut self, name: Atom, arguments: &[Value]) -> Result<Value, Memory> {
        let first = self.cells.len();
        self.cells.extend_from_slice(arguments)?;
        Ok(Value::Compound(Compound {
            name,
            first,
            arity: arguments.len(),
        }))
    }

    /// The argument at a place in a compound, from 0.
    pub fn argument(&self, compound: Compound, place: usize) -> Option<Value> {
        if place >= compound.arity {
            return None;
        }
        self.cells.get(compound.first.checked_add(place)?).copied()
    }

    /// What a term is once its own variable, where it is one, is looked up.
    pub fn value_of(&self, value: Value) -> Value {
        let mut found = value;
        for _ in 0..self.bindings.len() {
            match self.binding(found) {
                Some(bound) => found = bound,
                None => return found,
            }
        }
        found
    }

    /// The term that a bound variable is bound to.
    fn binding(&self, value: Value) -> Option<Value> {
        match value {
            Value::Variable(number) => match self.bindings.get(number) {
                Some(binding) => *binding,
                None => None,
            },
            _ => None,
        }
    }

    /// Binds a variable that is not bound.
    pub fn bind(&mut self, number: usize, value: Value) -> Result<(), Memory> {
        self.bound.push(number)?;
        if let Some(binding) = self.bindings.get_mut(number) {
            *binding = Some(value);
        }
        Ok(())
    }

    /// How much there is now.
    pub fn mark(&self) -> Mark {
        Mark {
            cells: self.cells.len(),
            variables: self.bindings.len(),
            bound: self.bound.len(),
        }
    }

    /// Undoes the bindings that were made since. The terms made since stay.
    pub fn unbind(&mut self, mark: Mark) {
        for _ in mark.bound..self.bound.len() {
            if let Some(number) = self.bound.pop() {
                self.loosen(number);
            }
        }
    }

    fn loosen(&mut self, number: usize) {
        if let Some(binding) = self.bindings.get_mut(number) {
            *binding = None;
        }
    }

    /// Undoes the bindings that were made since, and forgets the terms made since.
    pub fn restore(&mut self, mark: Mark) {
        self.unbind(mark);
        self.cells.truncate(mark.cells);
        self.bindings.truncate(mark.variables);
    }
}
