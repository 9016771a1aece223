use aq_term::memory::Memory;
use aq_term::proc_name::ProcName;
use bam_code::procedure::Proc;
use bam_code::signature::Signature;
use bam_types::verified::Verified;
use std::alloc::Global;
use std::collections::HashMap;

/// A name as a key: its atom's number, its arity, its part and its width.
type Key = (u32, u8, u32, u8);

fn key(name: &ProcName) -> Key {
    (name.name.number, name.arity, name.part, name.width)
}

/// Where a signature stands: the part and the number in it, from 0.
#[derive(Clone, Copy)]
struct Place {
    part: usize,
    number: usize,
}

/// Where the procedures and the imports of parts stand by name, each import at its first place.
#[derive(Drop)]
pub struct JoinNames {
    procs: HashMap<Key, Place>,
    imports: HashMap<Key, Place>,
}

impl JoinNames {
    pub fn new(alloc: Global) -> JoinNames {
        JoinNames {
            procs: HashMap::new(alloc),
            imports: HashMap::new(alloc),
        }
    }

    /// Adds the procedures of a part, and gives the number, from 0, of the first whose name was there.
    pub fn add_procs(&mut self, part: usize, procs: &[Proc]) -> Result<Option<usize>, Memory> {
        for (number, proc) in procs.iter().enumerate() {
            let place = Place { part, number };
            if self
                .procs
                .insert(key(&proc.signature.name), place)?
                .is_some()
            {
                return Ok(Some(number));
            }
        }
        Ok(None)
    }

    /// Whether a procedure has this name.
    pub fn has_proc(&self, name: &ProcName) -> bool {
        self.procs.get(&key(name)).is_some()
    }

    /// The signature that an import has to have: that of the procedure of its name, or of an earlier import of its name.
    pub fn wanted<'a>(&self, parts: &'a [Verified], name: &ProcName) -> Option<&'a Signature> {
        match self.procs.get(&key(name)) {
            Some(place) => proc_at(parts, *place),
            None => import_at(parts, *self.imports.get(&key(name))?),
        }
    }

    /// Adds an import, and says whether no procedure and no import has its name yet.
    pub fn add_import(
        &mut self,
        part: usize,
        number: usize,
        name: &ProcName,
    ) -> Result<bool, Memory> {
        if self.has_proc(name) || self.imports.get(&key(name)).is_some() {
            return Ok(false);
        }
        self.imports.insert(key(name), Place { part, number })?;
        Ok(true)
    }
}

fn proc_at(parts: &[Verified], place: Place) -> Option<&Signature> {
    let proc = parts
        .get(place.part)?
        .code()
        .procs
        .as_slice()
        .get(place.number)?;
    Some(&proc.signature)
}

fn import_at(parts: &[Verified], place: Place) -> Option<&Signature> {
    parts
        .get(place.part)?
        .code()
        .imports
        .as_slice()
        .get(place.number)
}
