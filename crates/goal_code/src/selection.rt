ghost use Rattle.std.specs.Prelude.{◌≡◌, ◌+◌, OnOk, vec_len};
ghost use Rattle.goal_code.specs.Alone.{AreSingle, IsAlone, EachIsAlone};
ghost use Rattle.goal_code.specs.declared.selection.Sharing.TheVariants as shared;

use aq_term::atom::Atom;
use aq_term::functor::Functor;
use aq_term::memory::Memory;
use determinism::key::Key;
use std::alloc::Global;
use std::collections::HashMap;

/// The clauses of a predicate that have one key, by the labels behind the test of it, in order.
#[derive(Debug, Drop)]
pub struct Group {
    pub key: Key,
    pub labels: Vec<u32>,
}

/// The labels of a clause's code: of its begin, and of what is behind the test of its key.
#[derive(Clone, Copy, Debug)]
pub struct ClauseLabels {
    pub begin: u32,
    pub tested: u32,
}

/// Whether clauses share keys.
#[derive(Clone, Copy, Debug, PartialEq, Eq)]
pub enum Sharing {
    /// Each clause has a key of its own.
    Never,
    Possible,
}

/// Groups of clauses whose keys are of one kind, in the order of their first clauses.
#[derive(Debug, Drop)]
pub struct Groups {
    alloc: Global,
    sharing: Sharing,
    groups: Vec<Group>,
    /// Where the group of each key stands. Where no key is shared nothing is noted.
    places: HashMap<(i64, u8), usize>,
}

impl Groups {
    pub fn new(alloc: Global, sharing: Sharing) -> Groups
        ensures { sharing ≡ shared.Never → IsAlone result }
    {
        Groups {
            alloc,
            sharing,
            groups: Vec::new(alloc),
            places: HashMap::new(alloc),
        }
    }

    pub fn as_slice(&self) -> &[Group]
        ensures { result.now ≡ self.now.groups.items }
    {
        self.groups.as_slice()
    }

    /// Adds a clause with a key of this kind.
    pub fn add(&mut self, key: Key, label: u32) -> Result<(), Memory>
        ensures { IsAlone self.old → IsAlone self.new }
    {
        match self.sharing {
            Sharing::Never => self.add_alone(key, label),
            Sharing::Possible => self.add_to_group(key, label),
        }
    }

    /// Adds a group of a clause whose key no other clause has.
    fn add_alone(&mut self, key: Key, label: u32) -> Result<(), Memory>
        ensures { IsAlone self.old → IsAlone self.new }
    {
        let mut labels = Vec::new(self.alloc);
        labels.push(label)?;
        self.groups.push(Group { key, labels })?;
        Ok(())
    }

    /// Adds a clause to the group of its key.
    fn add_to_group(&mut self, key: Key, label: u32) -> Result<(), Memory>
        ensures { self.new.sharing ≡ self.old.sharing }
    {
        let place = match self.places.get(&code(key)) {
            Some(place) => *place,
            None => self.open(key)?,
        };
        if let Some(group) = self.groups.get_mut(place) {
            group.labels.push(label)?;
        }
        Ok(())
    }

    /// A group without clauses for a new key.
    fn open(&mut self, key: Key) -> Result<usize, Memory>
        ensures { self.new.sharing ≡ self.old.sharing }
    {
        let place = self.groups.len();
        let labels = Vec::new(self.alloc);
        self.groups.push(Group { key, labels })?;
        self.places.insert(code(key), place)?;
        Ok(place)
    }
}

/// A key as it is looked up among keys of its kind.
fn code(key: Key) -> (i64, u8) {
    match key {
        Key::Int(value) => (value, 0),
        Key::Atom(name) => (i64::from(name.number), 0),
        Key::Functor(functor) => (i64::from(functor.name.number), functor.arity),
    }
}

/// The labels of the begins of clauses, in order.
pub fn begins(alloc: Global, clauses: &[ClauseLabels]) -> Result<Vec<u32>, Memory> {
    let mut begins = Vec::with_capacity(alloc, clauses.len())?;
    for labels in clauses {
        begins.push(labels.begin)?;
    }
    Ok(begins)
}

/// The clauses of a predicate by their keys at the argument that selects them.
#[derive(Debug, Drop)]
pub struct Selection {
    /// The number of the argument.
    pub argument: u8,
    /// The labels of all clauses, in order.
    pub labels: Vec<ClauseLabels>,
    pub atoms: Groups,
    pub integers: Groups,
    /// One group at most.
    pub lists: Groups,
    pub structures: Groups,
}

impl Selection {
    /// A selection at this argument of no clauses.
    pub fn new(alloc: Global, argument: u8, sharing: Sharing) -> Selection
        ensures argument { result.argument ≡ argument }
        ensures labels { vec_len result.labels ≡ 0 }
        ensures alone { sharing ≡ shared.Never → EachIsAlone result }
    {
        Selection {
            argument,
            labels: Vec::new(alloc),
            atoms: Groups::new(alloc, sharing),
            integers: Groups::new(alloc, sharing),
            lists: Groups::new(alloc, sharing),
            structures: Groups::new(alloc, sharing),
        }
    }

    /// Adds the next clause, whose code has these labels.
    pub fn add(&mut self, key: Key, labels: ClauseLabels) -> Result<(), Memory>
        ensures argument { self.new.argument ≡ self.old.argument }
        ensures labels { OnOk result (vec_len self.new.labels ≡ vec_len self.old.labels + 1) }
        ensures alone { EachIsAlone self.old → EachIsAlone self.new }
    {
        self.labels.push(labels)?;
        let label = labels.tested;
        match key {
            Key::Atom(_) => self.atoms.add(key, label),
            Key::Int(_) => self.integers.add(key, label),
            Key::Functor(
                Functor {
                    name: Atom::LIST,
                    arity: 2,
                },
            ) => self.lists.add(key, label),
            Key::Functor(_) => self.structures.add(key, label),
        }
    }
}
