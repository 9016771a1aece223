use aq_term::memory::Memory;
use aq_term::pool::Pool;
use aq_term::term::Term;
use std::alloc::Global;
use std::collections::HashMap;

/// A term as a list of numbers: its parts from left to right, each compound before its arguments.
type Spelling = Vec<u64>;

fn spell_part(term: &Term, spelling: &mut Spelling) -> Result<(), Memory> {
    let (kind, value, arity) = match term {
        Term::Var(number) => (0, u64::from(*number), 0),
        Term::Int(value) => (1, value.cast_unsigned(), 0),
        Term::Atom(name) => (2, u64::from(name.number), 0),
        Term::Compound(name, args) => (3, u64::from(name.number), args.len() as u64),
    };
    spelling.push(kind)?;
    spelling.push(value)?;
    spelling.push(arity)?;
    Ok(())
}

/// Puts the arguments of a term on a stack, the first one last.
fn push_args<'a>(term: &'a Term, stack: &mut Vec<&'a Term>) -> Result<(), Memory> {
    if let Term::Compound(_, args) = term {
        for arg in args.as_slice().iter().rev() {
            stack.push(arg)?;
        }
    }
    Ok(())
}

fn spell(alloc: Global, term: &Term) -> Result<Spelling, Memory> {
    let mut spelling = Vec::new(alloc);
    let mut stack = Vec::new(alloc);
    stack.push(term)?;
    for _ in 0..term.nodes() {
        if let Some(part) = stack.pop() {
            spell_part(part, &mut spelling)?;
            push_args(part, &mut stack)?;
        }
    }
    Ok(spelling)
}

/// The ground compounds that a code's lines name, each once.
#[derive(Drop)]
pub struct GroundPool {
    numbers: HashMap<Spelling, u32>,
    terms: Vec<Term>,
}

impl GroundPool {
    /// A pool without entries.
    pub fn new(alloc: Global) -> GroundPool {
        GroundPool {
            numbers: HashMap::new(alloc),
            terms: Vec::new(alloc),
        }
    }

    /// The number of the entry that is this term, from 0. A term that is not there is copied to the end. More entries than a `u32`
    /// can number are want of memory.
    pub fn number(&mut self, alloc: Global, term: &Term) -> Result<u32, Memory> {
        let spelling = spell(alloc, term)?;
        if let Some(number) = self.numbers.get(&spelling) {
            return Ok(*number);
        }
        let number = u32::try_from(self.terms.len()).ok().ok_or(Memory)?;
        let copy = term.copy(alloc)?;
        self.numbers.insert(spelling, number)?;
        self.terms.push(copy)?;
        Ok(number)
    }

    /// All entries, in the order of their numbers.
    pub fn into_pool(self) -> Pool {
        let GroundPool { numbers: _, terms } = self;
        Pool::from_vec(terms)
    }
}
